// The step that a load gives next, picked by its seed among the steps that would be accepted.
#![tactic(auto)]

ghost use Rattle.std.specs.Prelude.{◌≡◌, []};
ghost use Rattle.tables.specs.Lent.{tables_lent};
ghost use Rattle.tables.specs.Tables.{clients_of};
ghost use Rattle.soundness.specs.Facts.{Sound};
ghost use Rattle.workload.specs.Passing.{passing};
ghost use Rattle.workload.specs.Load.{numbered_count, next_step};
ghost use Rattle.workload.specs.Accepts.{accepts};
ghost use Rattle.workload.specs.Ready.{Scanned};
ghost use Rattle.workload.specs.Results.{next_given, next_of};

use arrayvec::ArrayVec;
use causes::Refusal;
use tables::counts;
use tables::lent::Lent;
use workload::Pick;

// The numbered steps of 16 clients.
const MOST: usize = 16 * workload::NUMBERED as usize;

// The numbers of the steps that would be accepted, rising, in a row that is lent empty: as an answer it would be copied whole.
fn list_accepted(t: &Lent, numbers: &mut ArrayVec<u32, MOST>)
    requires scanned { let u = tables_lent t.now in Scanned u.counts u.clients u.links u.keys u.log }
    requires none { numbers.old.items ≡ [] }
    ensures { let u = tables_lent t.now in numbers.new.items ≡ passing (accepts u) (numbered_count (clients_of u)) }
{
    let total = workload::NUMBERED * counts::count_at(t.counts, counts::CLIENTS);
    for number in 0..total {
        if acceptable_steps::accepts(t, number) {
            numbers.push(number);
        }
    }
}

// The next step of a load, and the seed behind it, on tables known to be sound; none where no step is acceptable.
pub fn next_step_sound(t: &Lent, seed: u32) -> Option<Pick>
    requires { Sound (tables_lent t.now) }
    ensures { next_given result ≡ next_step (tables_lent t.now) seed }
{
    let mut numbers = ArrayVec::new();
    list_accepted(t, &mut numbers);
    if numbers.is_empty() {
        return None;
    }
    let behind = numbered_steps::advance(seed);
    let index = numbered_steps::index_by(behind, numbers.len() as u32) as usize;
    Some(Pick {
        seed: behind,
        step: numbered_steps::numbered(t.counts, t.clients, numbers[index]),
    })
}

// The next step of a load, and the seed behind it: refused by 2.
pub fn next_step(t: &Lent, seed: u32) -> Result<Option<Pick>, Refusal>
    ensures { next_of result ≡ next_step (tables_lent t.now) seed }
{
    if !sound_tables::sound(t) {
        return Err(Refusal::NotSound);
    }
    Ok(next_step_sound(t, seed))
}
