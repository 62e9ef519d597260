// What other languages call on tables known to be sound, on numbers and slices: six steps that check no tables. They are named
// `_unchecked`, since nothing checks a caller in another language. `step_numbers` and `crossings` make the numbers of their answers.
// They stand in a library of their own. Beside the public steps each step of `store` would have two callers, so that the compiler would leave
// it a call, with each slice handed over by the address of a copy; here it has one, and is inlined.
#![tactic(auto)]

ghost use Rattle.std.specs.Prelude.{◌≡◌};
ghost use Rattle.tables.specs.Tables.{tables_of};
ghost use Rattle.soundness.specs.Facts.{Sound};
ghost use Rattle.refusals.specs.Steps.{begin_write, begin_read, deliver_request, deliver_reply, lose, resend};
ghost use Rattle.step_numbers.specs.Numbers.{numbered, in_numbers, crossed, in_crossing};

use step_numbers::Crossing;

// Begins a WRITE on tables known to be sound.
#[unsafe(no_mangle)]
pub extern "C" fn store_begin_write_unchecked(
    counts: &mut [u32],
    clients: &mut [u32],
    links: &mut [u32],
    keys: &[u32],
    values: &[u32],
    log: &[u32],
    writes: &mut [u32],
    reads: &[u32],
    client: u32,
    mask: u32,
    badge: u16,
    setpoints: &[u32],
) -> u32
    requires { Sound (tables_of counts.old clients.old links.old keys.now values.now log.now writes.old reads.now) }
    ensures { numbered result (tables_of counts.new clients.new links.new keys.now
        values.now log.now
        writes.new reads.now)
        ≡ in_numbers (begin_write client mask badge setpoints.now
        (tables_of counts.old clients.old links.old keys.now
        values.now log.now
        writes.old reads.now)) }
{
    // Kept: (a) eight slices for themselves, here and below: names and signatures are the C interface.
    step_numbers::of_step(sound_steps::begin_write_sound(
        counts, clients, links, keys, values, log, writes, reads, client, mask, badge, setpoints,
    ))
}

// Begins a READ on tables known to be sound.
#[unsafe(no_mangle)]
pub extern "C" fn store_begin_read_unchecked(
    counts: &mut [u32],
    clients: &mut [u32],
    links: &mut [u32],
    keys: &[u32],
    values: &[u32],
    log: &[u32],
    writes: &[u32],
    reads: &mut [u32],
    client: u32,
    mask: u32,
) -> u32
    requires { Sound (tables_of counts.old clients.old links.old keys.now values.now log.now writes.now reads.old) }
    ensures { numbered result (tables_of counts.new clients.new links.new keys.now
        values.now log.now
        writes.now reads.new)
        ≡ in_numbers (begin_read client mask
        (tables_of counts.old clients.old links.old keys.now
        values.now log.now
        writes.now reads.old)) }
{
    step_numbers::of_step(sound_steps::begin_read_sound(
        counts, clients, links, keys, values, log, writes, reads, client, mask,
    ))
}

// Delivers a request on tables known to be sound.
#[unsafe(no_mangle)]
pub extern "C" fn store_deliver_request_unchecked(
    counts: &mut [u32],
    clients: &[u32],
    links: &mut [u32],
    keys: &mut [u32],
    values: &mut [u32],
    log: &mut [u32],
    writes: &mut [u32],
    reads: &[u32],
    client: u32,
    target: u32,
) -> u32
    requires { Sound (tables_of counts.old clients.now links.old keys.old values.old log.old writes.old reads.now) }
    ensures { numbered result (tables_of counts.new clients.now links.new keys.new
        values.new log.new
        writes.new reads.now)
        ≡ in_numbers (deliver_request client target
        (tables_of counts.old clients.now links.old keys.old
        values.old log.old
        writes.old reads.now)) }
{
    step_numbers::of_step(sound_steps::deliver_request_sound(
        counts, clients, links, keys, values, log, writes, reads, client, target,
    ))
}

// Delivers a reply on tables known to be sound.
#[unsafe(no_mangle)]
pub extern "C" fn store_deliver_reply_unchecked(
    counts: &mut [u32],
    clients: &mut [u32],
    links: &mut [u32],
    keys: &[u32],
    values: &[u32],
    log: &[u32],
    writes: &mut [u32],
    reads: &mut [u32],
    client: u32,
    target: u32,
) -> Crossing
    requires { Sound (tables_of counts.old clients.old links.old keys.now values.now log.now writes.old reads.old) }
    ensures { crossed result (tables_of counts.new clients.new links.new keys.now
        values.now log.now
        writes.new reads.new)
        ≡ in_crossing (deliver_reply client target
        (tables_of counts.old clients.old links.old keys.now
        values.now log.now
        writes.old reads.old)) }
{
    let mut tags = [0u32; 16];
    let outcome = sound_steps::take_reply(
        counts, clients, links, keys, values, log, writes, reads, client, target, &mut tags,
    );
    // The answer is made in two places: where two paths make one value, the compiler copies its rows.
    let Some(mask) = outcome.shown else {
        return crossings::plain(outcome.arrival);
    };
    crossings::shown(&*clients, client as usize, outcome.arrival, mask, tags)
}

// Loses what a link holds, on tables known to be sound.
#[unsafe(no_mangle)]
pub extern "C" fn store_lose_unchecked(
    counts: &mut [u32],
    clients: &[u32],
    links: &mut [u32],
    keys: &[u32],
    values: &[u32],
    log: &[u32],
    writes: &[u32],
    reads: &[u32],
    client: u32,
    target: u32,
) -> u32
    requires { Sound (tables_of counts.old clients.now links.old keys.now values.now log.now writes.now reads.now) }
    ensures { numbered result (tables_of counts.new clients.now links.new keys.now
        values.now log.now
        writes.now reads.now)
        ≡ in_numbers (lose client target (tables_of counts.old clients.now links.old keys.now
        values.now log.now
        writes.now reads.now)) }
{
    step_numbers::of_step(sound_steps::lose_sound(
        counts, clients, links, keys, values, log, writes, reads, client, target,
    ))
}

// Sends again what was lost on a link, on tables known to be sound.
#[unsafe(no_mangle)]
pub extern "C" fn store_resend_unchecked(
    counts: &mut [u32],
    clients: &[u32],
    links: &mut [u32],
    keys: &[u32],
    values: &[u32],
    log: &[u32],
    writes: &[u32],
    reads: &[u32],
    client: u32,
    target: u32,
) -> u32
    requires { Sound (tables_of counts.old clients.now links.old keys.now values.now log.now writes.now reads.now) }
    ensures { numbered result (tables_of counts.new clients.now links.new keys.now
        values.now log.now
        writes.now reads.now)
        ≡ in_numbers (resend client target (tables_of counts.old clients.now links.old keys.now
        values.now log.now
        writes.now reads.now)) }
{
    step_numbers::of_step(sound_steps::resend_sound(
        counts, clients, links, keys, values, log, writes, reads, client, target,
    ))
}
