// One line of a schedule, played: the step that it names, its change of the tables, and its answer in print.
#![tactic(auto)]

ghost use Rattle.std.specs.Prelude.{◌≡◌, ◌+◌, ◌≤◌, length};
ghost use Rattle.tables.specs.Lent.{tables_in, SameLent};
ghost use Rattle.schedule.specs.Steps.{setpoints_most, step_of, stored};
ghost use Rattle.printing.specs.Printed.{Printed};
ghost use Rattle.printing.specs.Sizes.{answer_most};
ghost use Rattle.playing.specs.Played.{showing, played_line, shown_text, LinePlayed};
ghost use Rattle.playing.specs.Playable.{Playable};

use playing::Shown;
use printing::Servers;
use tables::lent::Press;

// One line of a schedule: the step that it names. The place that is lent for its setpoints holds them then.
fn play_named(press: &mut Press, line: &[u8], setpoints: &mut [u32]) -> Shown
    requires playable { Playable (tables_in press.old) }
    requires setpoints_most_in_bounds { setpoints_most ≤ length setpoints.old }
    ensures same { SameLent press.old press.new }
    ensures reads_after { showing result (tables_in press.new) ≡ played_line line.now (tables_in press.old) }
    ensures setpoints_after { setpoints.new ≡ stored (step_of line.now).setpoints setpoints.old }
{
    let reading = step_reading::read_step(line, setpoints);
    step_playing::play_step(press, reading.step, &setpoints[..reading.setpoints])
}

// The answer of a line, in print. Only where servers are shown are their rows looked at.
fn print_shown(number: u64, shown: Shown, out: &mut [u8], at: usize) -> usize
    requires { at + answer_most ≤ length out.old }
    ensures { Printed out.old at (shown_text number shown) result out.new × (result ≤ at + answer_most) }
{
    let word = shown.word;
    if !answer_text::shows_servers(word) {
        return answer_text::print_plain_answer(number, word, out, at);
    }
    // Copied here, since a reference into what was passed would hold all of it in memory on each line.
    let setpoints = shown.setpoints;
    let tags = shown.tags;
    let badges = shown.badges;
    let servers = Servers {
        mask: shown.mask,
        setpoints: &setpoints,
        tags: &tags,
        badges: &badges,
    };
    answer_text::print_answer(number, word, &servers, out, at)
}

// One line of a schedule: its step, and its answer behind what is printed so far. It answers where the print ends then. The place that is
// lent for the line's setpoints holds them then; what it held before is of no account.
pub fn play_line(
    press: &mut Press,
    number: u64,
    line: &[u8],
    setpoints: &mut [u32],
    out: &mut [u8],
    at: usize,
) -> usize
    requires playable { Playable (tables_in press.old) }
    requires setpoints_most_in_bounds { setpoints_most ≤ length setpoints.old }
    requires answer_most_in_bounds { at + answer_most ≤ length out.old }
    ensures same { SameLent press.old press.new }
    ensures line_played { LinePlayed number line.now (tables_in press.old) out.old at result out.new (tables_in press.new) }
    ensures setpoints_after { setpoints.new ≡ stored (step_of line.now).setpoints setpoints.old }
{
    let shown = play_named(press, line, setpoints);
    print_shown(number, shown, out, at)
}
