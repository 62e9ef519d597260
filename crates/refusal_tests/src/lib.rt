// What refuses a step, on tables known to be sound: the tests in the order of their causes' numbers.
// An opening is judged by its numbers (`openings`) and asks for no sound tables.
#![tactic(auto)]

ghost use Rattle.std.specs.Prelude.{◌≡◌, List, ◌&&◌, ℕ, ◌≤◌, ◌<◌, length, eqb, leb};
ghost use Rattle.keys.specs.Masks.{mask_within};
ghost use Rattle.tables.specs.Layout.{count_words, count_at, clients_field, method_field, client_word, state_field};
ghost use Rattle.tables.specs.Tables.{tables_of};
ghost use Rattle.causes.specs.Numbers.{fault_of};
ghost use Rattle.rules.specs.Common.{idle};
ghost use Rattle.refusals.specs.Refusals.{is_retired, is_target_of, begin_fault, write_fault, read_fault, delivery_fault};
ghost use Rattle.refusals.specs.Cases.{Judged, is_spent};

use causes::Refusal;
use rules::states;
use tables::{clients, counts, links, records};

pub mod openings;

// Whether a number names a target: a server below their number, or the coordinator.
pub fn is_target(servers: u32, target: u32) -> bool
    ensures { result ≡ is_target_of servers target }
{
    target < servers || target == links::COORDINATOR as u32
}

// A delivery: no such client or target, or the last step.
pub fn delivery_fault(counts: &[u32], client: u32, target: u32) -> Result<(), Refusal>
    requires { count_words ≤ length counts.now }
    ensures { (clients links keys values log writes reads : List ℕ) → fault_of result ≡ delivery_fault client target (tables_of counts.now clients links keys values log writes reads) }
{
    if counts::count_at(counts, counts::CLIENTS) <= client {
        return Err(Refusal::Absent);
    }
    if !is_target(counts::count_at(counts, counts::SERVERS), target) {
        return Err(Refusal::Absent);
    }
    if counts::LAST_STEP <= counts::count_at(counts, counts::STEP) {
        return Err(Refusal::Spent);
    }
    Ok(())
}

// Method 1 is retired: nothing new begins on its tables.
pub fn is_retired(method: u32) -> bool
    ensures { result ≡ is_retired method }
{
    method == 1
}

// What both kinds of begin ask last: a record's place, and a step number that can grow.
fn is_spent(counts: &[u32], kind: usize) -> bool
    requires { (count_words ≤ length counts.now) × (kind < count_words) }
    ensures { result ≡ is_spent counts.now kind }
{
    records::PLACES as u32 <= counts::count_at(counts, kind)
        || counts::LAST_STEP <= counts::count_at(counts, counts::STEP)
}

// Whether a WRITE has a mask within the servers, and a setpoint for each of them.
fn fits_write(mask: u32, given: usize, servers: u32) -> bool
    requires { servers ≤ 16 }
    ensures { result ≡ (mask_within mask servers && eqb given servers) }
{
    keys::mask_within(mask, servers) && given == servers as usize
}

// A begin, that fits or not: the causes of the numbers 3 to 7 in their order.
fn begin_fault(
    counts: &[u32],
    clients: &[u32],
    client: u32,
    fits: bool,
    kind: usize,
) -> Result<(), Refusal>
    requires judged { Judged counts.now clients.now }
    requires kind_lt_words { kind < count_words }
    ensures { fault_of result
        ≡ begin_fault (leb (count_at counts.now clients_field) client) (is_retired (count_at counts.now method_field))
        (eqb (client_word clients.now client state_field) idle) fits (is_spent counts.now kind) }
{
    if counts::count_at(counts, counts::CLIENTS) <= client {
        return Err(Refusal::Absent);
    }
    if is_retired(counts::count_at(counts, counts::METHOD)) {
        return Err(Refusal::Retired);
    }
    if clients::client_word(clients, client as usize, clients::STATE) != states::IDLE {
        return Err(Refusal::Busy);
    }
    if !fits {
        return Err(Refusal::Unfit);
    }
    if is_spent(counts, kind) {
        return Err(Refusal::Spent);
    }
    Ok(())
}

// A WRITE, by its mask and how many setpoints are given: the causes of the numbers 3 to 7 in their order.
pub fn write_fault(
    counts: &[u32],
    clients: &[u32],
    client: u32,
    mask: u32,
    given: usize,
) -> Result<(), Refusal>
    requires { Judged counts.now clients.now }
    ensures { (links keys values log writes reads : List ℕ) → fault_of result ≡ write_fault client mask given (tables_of counts.now clients.now links keys values log writes reads) }
{
    let servers = counts::count_at(counts, counts::SERVERS);
    begin_fault(
        counts,
        clients,
        client,
        fits_write(mask, given, servers),
        counts::WRITES,
    )
}

// A READ, by its mask: the causes of the numbers 3 to 7 in their order.
pub fn read_fault(counts: &[u32], clients: &[u32], client: u32, mask: u32) -> Result<(), Refusal>
    requires { Judged counts.now clients.now }
    ensures { (links keys values log writes reads : List ℕ) → fault_of result ≡ read_fault client mask (tables_of counts.now clients.now links keys values log writes reads) }
{
    let servers = counts::count_at(counts, counts::SERVERS);
    begin_fault(
        counts,
        clients,
        client,
        keys::mask_within(mask, servers),
        counts::READS,
    )
}
