// One step of a load, picked and played on lent tables that are sound.
#![tactic(auto)]

ghost use Rattle.std.specs.Prelude.{◌≡◌};
ghost use Rattle.tables.specs.Lent.{tables_in, SameLent};
ghost use Rattle.soundness.specs.Facts.{Sound};
ghost use Rattle.workload.specs.Results.{next_given};
ghost use Rattle.workload.specs.Load.{load_played};
ghost use Rattle.workload_run.specs.Run.{taken, take_step};

use playing::Shown;
use tables::counts;
use tables::lent::Press;
use workload::{LoadStep, Pick};

// Plays a step of the load on sound tables.
fn play_given(press: &mut Press, picked: LoadStep)
    requires { Sound (tables_in press.old) }
    ensures same { SameLent press.old press.new }
    ensures played { tables_in press.new ≡ (load_played (tables_in press.old) picked).tables }
{
    let servers = counts::count_at(press.lent().counts, counts::SERVERS) as usize;
    let setpoints = [picked.setpoint; 16];
    let _shown: Shown = step_playing::play_step(press, picked.step, &setpoints[..servers]);
}

// One pick: the step that it gives is played.
pub fn take_step(press: &mut Press, seed: u32) -> Option<Pick>
    requires { Sound (tables_in press.old) }
    ensures same { SameLent press.old press.new }
    ensures took { taken (next_given result) (tables_in press.new) ≡ take_step (tables_in press.old) seed }
{
    let pick = load_pick::next_step_sound(&press.lent(), seed)?;
    play_given(press, pick.step);
    Some(pick)
}
