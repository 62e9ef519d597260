// A whole text to be played on lent tables into a lent space: whether it may be, whether it has room, and its end, the register.
// `text_run` plays it.
#![tactic(auto)]

ghost use Rattle.std.specs.Prelude.{◌≡◌, ◌+◌, ◌≤◌, length, leb};
ghost use Rattle.tables.specs.Lent.{tables_lent};
ghost use Rattle.schedule.specs.Lines.{lines_of};
ghost use Rattle.printing.specs.Printed.{Printed};
ghost use Rattle.register_text.specs.Text.{register_most, register_printed};
ghost use Rattle.playing.specs.Playable.{Playable};
ghost use Rattle.texts.specs.Text.{playable, room_for};

use tables::counts;
use tables::lent::Lent;

// How many lines a text has.
pub fn count_lines(text: &[u8]) -> usize
    ensures { result ≡ length (lines_of text.now) }
{
    let mut start = 0;
    let mut lines = 0;
    // Kept: (d) the walk goes from the end of a line to the next, so that no index is counted by hand.
    while start < text.len() {
        start = line_reading::line_end(text, start) + 1;
        lines += 1;
    }
    lines
}

// Whether all that so many lines can print has room in so many bytes. No product: it need not fit a word.
pub fn has_room(lines: usize, size: usize) -> bool
    ensures { result ≡ leb (room_for lines) size }
{
    if size < register_text::MOST {
        return false;
    }
    lines <= (size - register_text::MOST) / printing::ANSWER
}

// Whether a text may be played on the tables, whatever they hold and however short they are.
pub fn may_play(t: &Lent) -> bool
    ensures { result ≡ playable (tables_lent t.now) }
{
    if t.counts.len() < counts::WORDS {
        return false;
    }
    if counts::count_at(t.counts, counts::METHOD) == 0 {
        return true;
    }
    sound_tables::sound(t)
}

// The register of the last opening, from a place on; before any opening there is none. It answers where the print ends.
pub fn print_end(t: &Lent, out: &mut [u8], at: usize) -> usize
    requires playable { Playable (tables_lent t.now) }
    requires register_most_in_bounds { at + register_most ≤ length out.old }
    ensures { Printed out.old at (register_printed (tables_lent t.now)) result out.new × (result ≤ at + register_most) }
{
    if counts::count_at(t.counts, counts::METHOD) == 0 {
        return at;
    }
    register_text::print_register(t, out, at)
}
