// The lines of a text, played on lent tables into a lent space. It is for `text_run`, which proves what it asks.
#![tactic(auto)]

ghost use Rattle.std.specs.Prelude.{◌≤◌, length};
ghost use Rattle.tables.specs.Lent.{tables_in, SameLent};
ghost use Rattle.schedule.specs.Lines.{lines_of};
ghost use Rattle.playing.specs.Playable.{Playable};
ghost use Rattle.texts.specs.Text.{room_for};
ghost use Rattle.texts.specs.TextLaws.{LinesPlayed};

use tables::lent::Press;

// Plays all lines of a text, each answer behind the one before. It answers where the print ends.
pub fn play_lines(press: &mut Press, text: &[u8], out: &mut [u8]) -> usize
    requires playable { Playable (tables_in press.old) }
    requires text_in_bounds { room_for (length (lines_of text.now)) ≤ length out.old }
    ensures same { SameLent press.old press.new }
    ensures lines_played { LinesPlayed text.now (tables_in press.old) out.old result out.new (tables_in press.new) }
{
    let mut setpoints = [0u32; schedule::SETPOINTS];
    let mut start = 0;
    let mut lines = 0u64;
    let mut printed = 0;
    // Kept: (d) the walk goes from the end of a line to the next, so that no index is counted by hand.
    while start < text.len() {
        let line = line_reading::line_at(text, start);
        printed = line_playing::play_line(press, lines + 1, line, &mut setpoints, out, printed);
        start = start + line.len() + 1;
        lines += 1;
    }
    printed
}
