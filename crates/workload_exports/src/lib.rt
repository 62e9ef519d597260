// What other languages call, on numbers and slices: the number behind a seed, the next step of a load, and a load played, on any tables.
// `load_numbers` makes the numbers.
#![tactic(auto)]

ghost use Rattle.std.specs.Prelude.{◌≡◌};
ghost use Rattle.tables.specs.Tables.{tables_of};
ghost use Rattle.workload.specs.Load.{advance, next_step};
ghost use Rattle.workload_run.specs.Run.{play_load};
ghost use Rattle.load_numbers.specs.Numbers.{next_numbers, load_crossed, in_numbers};

use load_numbers::{LoadEnd, LoadPick};
use tables::lent::{Lent, Press};

// The number behind a seed.
#[unsafe(no_mangle)]
pub extern "C" fn load_advance(seed: u32) -> u32
    ensures { result ≡ advance seed }
{
    numbered_steps::advance(seed)
}

// The next step of a load, and the seed behind it.
#[unsafe(no_mangle)]
pub extern "C" fn load_next_step(
    counts: &[u32],
    clients: &[u32],
    links: &[u32],
    keys: &[u32],
    values: &[u32],
    log: &[u32],
    writes: &[u32],
    reads: &[u32],
    seed: u32,
) -> LoadPick
    ensures { result ≡ next_numbers seed (next_step
        (tables_of counts.now clients.now links.now keys.now values.now
        log.now writes.now reads.now) seed) }
{
    let lent = Lent {
        counts,
        clients,
        links,
        keys,
        values,
        log,
        writes,
        reads,
    };
    load_numbers::of_pick(seed, load_pick::next_step(&lent, seed))
}

// Plays a load of a wanted length on the lent tables, and lists its steps in rows of four words: kind, client, mask or target, setpoint.
#[unsafe(no_mangle)]
pub extern "C" fn load_play(
    counts: &mut [u32],
    clients: &mut [u32],
    links: &mut [u32],
    keys: &mut [u32],
    values: &mut [u32],
    log: &mut [u32],
    writes: &mut [u32],
    reads: &mut [u32],
    seed: u32,
    wanted: u32,
    list: &mut [u32],
) -> LoadEnd
    ensures { load_crossed result list.new
        (tables_of counts.new clients.new links.new keys.new values.new
        log.new writes.new reads.new)
        ≡ in_numbers seed (play_load seed wanted list.old
        (tables_of counts.old clients.old links.old keys.old values.old
        log.old writes.old reads.old)) }
{
    let mut press = Press {
        counts,
        clients,
        links,
        keys,
        values,
        log,
        writes,
        reads,
    };
    let load = load_run::play_load(&mut press, seed, wanted, list);
    load_numbers::of_load(seed, load)
}
