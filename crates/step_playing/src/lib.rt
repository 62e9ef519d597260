// One step of a schedule, played. No table is checked: they are not opened yet, or sound, and each step leaves them so.
#![tactic(auto)]

ghost use Rattle.std.specs.Prelude.{◌≡◌};
ghost use Rattle.tables.specs.Lent.{tables_in, SameLent};
ghost use Rattle.playing.specs.Played.{showing, played};
ghost use Rattle.playing.specs.Playable.{Playable};

use playing::Shown;
use schedule::Step;
use tables::counts;
use tables::lent::Press;

// One step of a schedule.
pub fn play_step(press: &mut Press, step: Step, setpoints: &[u32]) -> Shown
    requires { Playable (tables_in press.old) }
    ensures same { SameLent press.old press.new }
    ensures shown { showing result (tables_in press.new) ≡ played step setpoints.now (tables_in press.old) }
{
    if counts::count_at(press.lent().counts, counts::METHOD) == 0 {
        unopened_playing::play_unopened(
            press.counts,
            press.clients,
            press.links,
            press.keys,
            press.values,
            press.log,
            press.writes,
            press.reads,
            step,
            setpoints,
        )
    } else {
        opened_playing::play_opened(
            press.counts,
            press.clients,
            press.links,
            press.keys,
            press.values,
            press.log,
            press.writes,
            press.reads,
            step,
            setpoints,
        )
    }
}
