// The load played on lent tables, each of its steps written into a lent list.
#![tactic(auto)]

ghost use Rattle.std.specs.Prelude.{◌≡◌, ◌*◌, ◌≤◌, length};
ghost use Rattle.tables.specs.Lent.{tables_in, SameLent};
ghost use Rattle.soundness.specs.Facts.{Sound};
ghost use Rattle.workload_run.specs.Results.{load_of};
ghost use Rattle.workload_run.specs.Run.{step_width, begun, running, load, loaded, play_load};

use causes::Refusal;
use tables::lent::Press;
use workload_run::Progress;

// As many picks as are wanted, or fewer where one gives no step.
fn play_picks(press: &mut Press, seed: u32, wanted: u32, list: &mut [u32]) -> Progress
    requires sound { Sound (tables_in press.old) }
    requires wanted_in_bounds { step_width * wanted ≤ length list.old }
    ensures same { SameLent press.old press.new }
    ensures played { running result list.new (tables_in press.new)
        ≡ load wanted (running (begun seed) list.old (tables_in press.old)) }
{
    let mut seed = seed;
    for given in 0..wanted {
        let Some(pick) = load_steps::take_step(press, seed) else {
            return Progress { given, seed };
        };
        workload_run::put_step(list, given as usize, pick.step);
        seed = pick.seed;
    }
    Progress {
        given: wanted,
        seed,
    }
}

// Plays a load of a wanted length on the lent tables and lists its steps: refused by 2 or 12.
pub fn play_load(
    press: &mut Press,
    seed: u32,
    wanted: u32,
    list: &mut [u32],
) -> Result<Progress, Refusal>
    ensures same { SameLent press.old press.new }
    ensures played { loaded (load_of result) list.new (tables_in press.new)
        ≡ play_load seed wanted list.old (tables_in press.old) }
{
    if !sound_tables::sound(&press.lent()) {
        return Err(Refusal::NotSound);
    }
    if list.len() < workload_run::WIDTH * wanted as usize {
        return Err(Refusal::NoRoom);
    }
    Ok(play_picks(press, seed, wanted, list))
}
