// The seven public steps, on any tables: refused by a cause with all as before, or accepted and changed as the rules say. Each judges the
// tables first, number 2, and then takes the step of `sound_steps`; the opening there judges any tables by itself.
// Kept: (a) the eight tables are parameters, since a struct of them would ask `&mut` of tables that a step lends as `&`; C lends those as const.
#![tactic(auto)]

ghost use Rattle.std.specs.Prelude.{◌≡◌};
ghost use Rattle.tables.specs.Tables.{tables_of};
ghost use Rattle.rules.specs.Answers.{left, arrived};
ghost use Rattle.rules.specs.Results.{answer_by};
ghost use Rattle.refusals.specs.Steps.{open', begin_write, begin_read, deliver_request, deliver_reply, lose, resend};

use causes::Refusal;
use rules::{Arrival, Delivered};
use tables::lent::Lent;

// Opens the store: refused by 1 or 2. Old contents need not be sound. The number of clients is called panels here, since clients are their
// rows.
pub fn open(
    counts: &mut [u32],
    clients: &mut [u32],
    links: &mut [u32],
    keys: &mut [u32],
    values: &mut [u32],
    log: &mut [u32],
    writes: &[u32],
    reads: &[u32],
    method: u32,
    servers: u32,
    panels: u32,
    setpoints: &[u32],
) -> Result<(), Refusal>
    ensures { left (answer_by result) (tables_of counts.new clients.new links.new keys.new values.new
        log.new writes.now reads.now)
        ≡ open' method servers panels setpoints.now (tables_of counts.old clients.old links.old
        keys.old values.old log.old writes.now reads.now) }
{
    sound_steps::open(
        counts, clients, links, keys, values, log, writes, reads, method, servers, panels,
        setpoints,
    )
}

// Begins a WRITE: refused by 2 to 7.
pub fn begin_write(
    counts: &mut [u32],
    clients: &mut [u32],
    links: &mut [u32],
    keys: &[u32],
    values: &[u32],
    log: &[u32],
    writes: &mut [u32],
    reads: &[u32],
    client: u32,
    mask: u32,
    badge: u16,
    setpoints: &[u32],
) -> Result<(), Refusal>
    ensures { left (answer_by result) (tables_of counts.new clients.new links.new keys.now values.now log.now writes.new reads.now)
        ≡ begin_write client mask badge setpoints.now (tables_of counts.old clients.old links.old keys.now values.now log.now writes.old reads.now) }
{
    let lent = Lent {
        counts: &*counts,
        clients: &*clients,
        links: &*links,
        keys,
        values,
        log,
        writes: &*writes,
        reads,
    };
    if !sound_tables::sound(&lent) {
        return Err(Refusal::NotSound);
    }
    sound_steps::begin_write_sound(
        counts, clients, links, keys, values, log, writes, reads, client, mask, badge, setpoints,
    )
}

// Begins a READ: refused by 2 to 7.
pub fn begin_read(
    counts: &mut [u32],
    clients: &mut [u32],
    links: &mut [u32],
    keys: &[u32],
    values: &[u32],
    log: &[u32],
    writes: &[u32],
    reads: &mut [u32],
    client: u32,
    mask: u32,
) -> Result<(), Refusal>
    ensures { left (answer_by result) (tables_of counts.new clients.new links.new keys.now values.now log.now writes.now reads.new)
        ≡ begin_read client mask (tables_of counts.old clients.old links.old keys.now values.now log.now writes.now reads.old) }
{
    let lent = Lent {
        counts: &*counts,
        clients: &*clients,
        links: &*links,
        keys,
        values,
        log,
        writes,
        reads: &*reads,
    };
    if !sound_tables::sound(&lent) {
        return Err(Refusal::NotSound);
    }
    sound_steps::begin_read_sound(
        counts, clients, links, keys, values, log, writes, reads, client, mask,
    )
}

// Delivers a request: refused by 2, 3, 7, 8 or 9.
pub fn deliver_request(
    counts: &mut [u32],
    clients: &[u32],
    links: &mut [u32],
    keys: &mut [u32],
    values: &mut [u32],
    log: &mut [u32],
    writes: &mut [u32],
    reads: &[u32],
    client: u32,
    target: u32,
) -> Result<(), Refusal>
    ensures { left (answer_by result) (tables_of counts.new clients.now links.new keys.new values.new log.new writes.new reads.now)
        ≡ deliver_request client target (tables_of counts.old clients.now links.old keys.old values.old log.old writes.old reads.now) }
{
    let lent = Lent {
        counts: &*counts,
        clients,
        links: &*links,
        keys: &*keys,
        values: &*values,
        log: &*log,
        writes: &*writes,
        reads,
    };
    if !sound_tables::sound(&lent) {
        return Err(Refusal::NotSound);
    }
    sound_steps::deliver_request_sound(
        counts, clients, links, keys, values, log, writes, reads, client, target,
    )
}

// Delivers a reply: refused by 2, 3, 7 or 9.
pub fn deliver_reply(
    counts: &mut [u32],
    clients: &mut [u32],
    links: &mut [u32],
    keys: &[u32],
    values: &[u32],
    log: &[u32],
    writes: &mut [u32],
    reads: &mut [u32],
    client: u32,
    target: u32,
) -> Delivered
    ensures { arrived result (tables_of counts.new clients.new links.new keys.now values.now log.now writes.new reads.new)
        ≡ deliver_reply client target (tables_of counts.old clients.old links.old keys.now values.now log.now writes.old reads.old) }
{
    let lent = Lent {
        counts: &*counts,
        clients: &*clients,
        links: &*links,
        keys,
        values,
        log,
        writes: &*writes,
        reads: &*reads,
    };
    if !sound_tables::sound(&lent) {
        return step_parts::showing_nothing(Arrival::Refused(Refusal::NotSound.number()));
    }
    sound_steps::deliver_reply_sound(
        counts, clients, links, keys, values, log, writes, reads, client, target,
    )
}

// Loses what a link holds: refused by 2, 3, 7 or 14.
pub fn lose(
    counts: &mut [u32],
    clients: &[u32],
    links: &mut [u32],
    keys: &[u32],
    values: &[u32],
    log: &[u32],
    writes: &[u32],
    reads: &[u32],
    client: u32,
    target: u32,
) -> Result<(), Refusal>
    ensures { left (answer_by result) (tables_of counts.new clients.now links.new keys.now
        values.now log.now
        writes.now reads.now)
        ≡ lose client target (tables_of counts.old clients.now links.old keys.now
        values.now log.now
        writes.now reads.now) }
{
    let lent = Lent {
        counts: &*counts,
        clients,
        links: &*links,
        keys,
        values,
        log,
        writes,
        reads,
    };
    if !sound_tables::sound(&lent) {
        return Err(Refusal::NotSound);
    }
    sound_steps::lose_sound(
        counts, clients, links, keys, values, log, writes, reads, client, target,
    )
}

// Sends again what was lost on a link: refused by 2, 3, 7 or 15.
pub fn resend(
    counts: &mut [u32],
    clients: &[u32],
    links: &mut [u32],
    keys: &[u32],
    values: &[u32],
    log: &[u32],
    writes: &[u32],
    reads: &[u32],
    client: u32,
    target: u32,
) -> Result<(), Refusal>
    ensures { left (answer_by result) (tables_of counts.new clients.now links.new keys.now
        values.now log.now
        writes.now reads.now)
        ≡ resend client target (tables_of counts.old clients.now links.old keys.now
        values.now log.now
        writes.now reads.now) }
{
    let lent = Lent {
        counts: &*counts,
        clients,
        links: &*links,
        keys,
        values,
        log,
        writes,
        reads,
    };
    if !sound_tables::sound(&lent) {
        return Err(Refusal::NotSound);
    }
    sound_steps::resend_sound(
        counts, clients, links, keys, values, log, writes, reads, client, target,
    )
}
