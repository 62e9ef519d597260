// What other languages call, on numbers and slices: the check of tables, and the seven public steps. `sound_exports` has six of them on
// tables known to be sound, and `step_numbers` makes the numbers.
#![tactic(auto)]

ghost use Rattle.std.specs.Prelude.{◌≡◌};
ghost use Rattle.tables.specs.Tables.{tables_of};
ghost use Rattle.soundness.specs.Sound.{sound};
ghost use Rattle.refusals.specs.Steps.{open', begin_write, begin_read, deliver_request, deliver_reply, lose, resend};
ghost use Rattle.step_numbers.specs.Numbers.{numbered, in_numbers, crossed, in_crossing};

use step_numbers::Crossing;
use tables::lent::Lent;

// Whether the tables are sound.
#[unsafe(no_mangle)]
pub extern "C" fn store_sound(
    counts: &[u32],
    clients: &[u32],
    links: &[u32],
    keys: &[u32],
    values: &[u32],
    log: &[u32],
    writes: &[u32],
    reads: &[u32],
) -> bool
    ensures { result ≡ sound (tables_of counts.now clients.now links.now keys.now values.now log.now writes.now reads.now) }
{
    // Kept: (a) eight slices for themselves, here and below: names and signatures are the C interface.
    sound_tables::sound(&Lent {
        counts,
        clients,
        links,
        keys,
        values,
        log,
        writes,
        reads,
    })
}

// Opens the store.
#[unsafe(no_mangle)]
pub extern "C" fn store_open(
    counts: &mut [u32],
    clients: &mut [u32],
    links: &mut [u32],
    keys: &mut [u32],
    values: &mut [u32],
    log: &mut [u32],
    writes: &[u32],
    reads: &[u32],
    method: u32,
    servers: u32,
    panels: u32,
    setpoints: &[u32],
) -> u32
    ensures { numbered result (tables_of counts.new clients.new links.new keys.new values.new log.new writes.now reads.now)
        ≡ in_numbers (open' method servers panels setpoints.now (tables_of counts.old clients.old links.old keys.old values.old log.old writes.now reads.now)) }
{
    step_numbers::of_step(store::open(
        counts, clients, links, keys, values, log, writes, reads, method, servers, panels,
        setpoints,
    ))
}

// Begins a WRITE.
#[unsafe(no_mangle)]
pub extern "C" fn store_begin_write(
    counts: &mut [u32],
    clients: &mut [u32],
    links: &mut [u32],
    keys: &[u32],
    values: &[u32],
    log: &[u32],
    writes: &mut [u32],
    reads: &[u32],
    client: u32,
    mask: u32,
    badge: u16,
    setpoints: &[u32],
) -> u32
    ensures { numbered result (tables_of counts.new clients.new links.new keys.now values.now log.now writes.new reads.now)
        ≡ in_numbers (begin_write client mask badge setpoints.now (tables_of counts.old clients.old links.old keys.now values.now log.now writes.old reads.now)) }
{
    step_numbers::of_step(store::begin_write(
        counts, clients, links, keys, values, log, writes, reads, client, mask, badge, setpoints,
    ))
}

// Begins a READ.
#[unsafe(no_mangle)]
pub extern "C" fn store_begin_read(
    counts: &mut [u32],
    clients: &mut [u32],
    links: &mut [u32],
    keys: &[u32],
    values: &[u32],
    log: &[u32],
    writes: &[u32],
    reads: &mut [u32],
    client: u32,
    mask: u32,
) -> u32
    ensures { numbered result (tables_of counts.new clients.new links.new keys.now values.now log.now writes.now reads.new)
        ≡ in_numbers (begin_read client mask (tables_of counts.old clients.old links.old keys.now values.now log.now writes.now reads.old)) }
{
    step_numbers::of_step(store::begin_read(
        counts, clients, links, keys, values, log, writes, reads, client, mask,
    ))
}

// Delivers a request.
#[unsafe(no_mangle)]
pub extern "C" fn store_deliver_request(
    counts: &mut [u32],
    clients: &[u32],
    links: &mut [u32],
    keys: &mut [u32],
    values: &mut [u32],
    log: &mut [u32],
    writes: &mut [u32],
    reads: &[u32],
    client: u32,
    target: u32,
) -> u32
    ensures { numbered result (tables_of counts.new clients.now links.new keys.new values.new log.new writes.new reads.now)
        ≡ in_numbers (deliver_request client target (tables_of counts.old clients.now links.old keys.old values.old log.old writes.old reads.now)) }
{
    step_numbers::of_step(store::deliver_request(
        counts, clients, links, keys, values, log, writes, reads, client, target,
    ))
}

// Delivers a reply.
#[unsafe(no_mangle)]
pub extern "C" fn store_deliver_reply(
    counts: &mut [u32],
    clients: &mut [u32],
    links: &mut [u32],
    keys: &[u32],
    values: &[u32],
    log: &[u32],
    writes: &mut [u32],
    reads: &mut [u32],
    client: u32,
    target: u32,
) -> Crossing
    ensures { crossed result (tables_of counts.new clients.new links.new keys.now values.now log.now writes.new reads.new)
        ≡ in_crossing (deliver_reply client target (tables_of counts.old clients.old links.old keys.now values.now log.now writes.old reads.old)) }
{
    Crossing::from(store::deliver_reply(
        counts, clients, links, keys, values, log, writes, reads, client, target,
    ))
}

// Loses what a link holds.
#[unsafe(no_mangle)]
pub extern "C" fn store_lose(
    counts: &mut [u32],
    clients: &[u32],
    links: &mut [u32],
    keys: &[u32],
    values: &[u32],
    log: &[u32],
    writes: &[u32],
    reads: &[u32],
    client: u32,
    target: u32,
) -> u32
    ensures { numbered result (tables_of counts.new clients.now links.new keys.now
        values.now log.now
        writes.now reads.now)
        ≡ in_numbers (lose client target (tables_of counts.old clients.now links.old keys.now
        values.now log.now
        writes.now reads.now)) }
{
    step_numbers::of_step(store::lose(
        counts, clients, links, keys, values, log, writes, reads, client, target,
    ))
}

// Sends again what was lost on a link.
#[unsafe(no_mangle)]
pub extern "C" fn store_resend(
    counts: &mut [u32],
    clients: &[u32],
    links: &mut [u32],
    keys: &[u32],
    values: &[u32],
    log: &[u32],
    writes: &[u32],
    reads: &[u32],
    client: u32,
    target: u32,
) -> u32
    ensures { numbered result (tables_of counts.new clients.now links.new keys.now
        values.now log.now
        writes.now reads.now)
        ≡ in_numbers (resend client target (tables_of counts.old clients.now links.old keys.now
        values.now log.now
        writes.now reads.now)) }
{
    step_numbers::of_step(store::resend(
        counts, clients, links, keys, values, log, writes, reads, client, target,
    ))
}
