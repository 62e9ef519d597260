// The opening, and the other steps on tables known to be sound: refused by number with all as before, or accepted and changed as the rules
// say. But for the opening they ask for sound tables and do not check them: who has opened a store and keeps its tables to himself calls
// these. `store` has the same steps on any tables.
// Kept: (a) the eight tables are parameters, since a struct of them would ask `&mut` of tables that a step lends as `&`; C lends those as const.
#![tactic(auto)]

ghost use Rattle.std.specs.Prelude.{◌≡◌, replicate};
ghost use Rattle.tables.specs.Tables.{tables_of};
ghost use Rattle.rules.specs.Answers.{left, arrived};
ghost use Rattle.causes.specs.Numbers.{number_of};
ghost use Rattle.rules.specs.Results.{answer_by};
ghost use Rattle.rules.specs.declared.Arrival.TheVariants.{Refused};
ghost use Rattle.reply_parts.specs.Shown.{plainly};
ghost use Rattle.soundness.specs.Facts.{Sound};
ghost use Rattle.sound_steps.specs.Replies.{Replied};
ghost use Rattle.refusals.specs.Steps.{open', begin_write, begin_read, deliver_request, deliver_reply, lose, resend};

use causes::Refusal;
use refusal_tests::openings;
use reply_parts::Outcome;
use rules::{Arrival, Delivered, states};
use sound_lengths::lengths;
use step_parts::words;
use tables::lent::Lent;
use tables::{clients, links};

// Opens the store: refused by 1 or 2. Old contents need not be sound. The number of clients is called panels here, since clients are their
// rows.
pub fn open(
    counts: &mut [u32],
    clients: &mut [u32],
    links: &mut [u32],
    keys: &mut [u32],
    values: &mut [u32],
    log: &mut [u32],
    writes: &[u32],
    reads: &[u32],
    method: u32,
    servers: u32,
    panels: u32,
    setpoints: &[u32],
) -> Result<(), Refusal>
    ensures { left (answer_by result) (tables_of counts.new clients.new links.new keys.new values.new log.new writes.now reads.now)
        ≡ open' method servers panels setpoints.now (tables_of counts.old clients.old links.old keys.old values.old log.old writes.now reads.now) }
{
    if !openings::fits_press(method, servers, panels, setpoints.len()) {
        return Err(Refusal::NoSuchPress);
    }
    let lent = Lent {
        counts: &*counts,
        clients: &*clients,
        links: &*links,
        keys: &*keys,
        values: &*values,
        log: &*log,
        writes,
        reads,
    };
    if !lengths::long_enough(servers, panels, &lent) {
        return Err(Refusal::NotSound);
    }
    opening::open(
        counts, clients, links, keys, values, log, method, servers, panels, setpoints,
    );
    Ok(())
}

// Begins a WRITE on tables known to be sound: refused by 3 to 7.
pub fn begin_write_sound(
    counts: &mut [u32],
    clients: &mut [u32],
    links: &mut [u32],
    keys: &[u32],
    values: &[u32],
    log: &[u32],
    writes: &mut [u32],
    reads: &[u32],
    client: u32,
    mask: u32,
    badge: u16,
    setpoints: &[u32],
) -> Result<(), Refusal>
    requires { Sound (tables_of counts.old clients.old links.old keys.now values.now log.now writes.old reads.now) }
    ensures { left (answer_by result) (tables_of counts.new clients.new links.new keys.now values.now log.now writes.new reads.now)
        ≡ begin_write client mask badge setpoints.now (tables_of counts.old clients.old links.old keys.now values.now log.now writes.old reads.now) }
{
    refusal_tests::write_fault(&*counts, &*clients, client, mask, setpoints.len())?;
    begins::begin_write(
        counts,
        clients,
        links,
        writes,
        client as usize,
        mask,
        badge as u32,
        setpoints,
    );
    Ok(())
}

// Begins a READ on tables known to be sound: refused by 3 to 7.
pub fn begin_read_sound(
    counts: &mut [u32],
    clients: &mut [u32],
    links: &mut [u32],
    keys: &[u32],
    values: &[u32],
    log: &[u32],
    writes: &[u32],
    reads: &mut [u32],
    client: u32,
    mask: u32,
) -> Result<(), Refusal>
    requires { Sound (tables_of counts.old clients.old links.old keys.now values.now log.now writes.now reads.old) }
    ensures { left (answer_by result) (tables_of counts.new clients.new links.new keys.now values.now log.now writes.now reads.new)
        ≡ begin_read client mask (tables_of counts.old clients.old links.old keys.now values.now log.now writes.now reads.old) }
{
    refusal_tests::read_fault(&*counts, &*clients, client, mask)?;
    begins::begin_read(counts, clients, links, reads, client as usize, mask);
    Ok(())
}

// Delivers a request on tables known to be sound: refused by 3, 7, 8 or 9.
pub fn deliver_request_sound(
    counts: &mut [u32],
    clients: &[u32],
    links: &mut [u32],
    keys: &mut [u32],
    values: &mut [u32],
    log: &mut [u32],
    writes: &mut [u32],
    reads: &[u32],
    client: u32,
    target: u32,
) -> Result<(), Refusal>
    requires { Sound (tables_of counts.old clients.now links.old keys.old values.old log.old writes.old reads.now) }
    ensures { left (answer_by result) (tables_of counts.new clients.now links.new keys.new values.new log.new writes.new reads.now)
        ≡ deliver_request client target (tables_of counts.old clients.now links.old keys.old values.old log.old writes.old reads.now) }
{
    refusal_tests::delivery_fault(&*counts, client, target)?;
    requests::deliver_request(
        counts,
        clients,
        links,
        keys,
        values,
        log,
        writes,
        client as usize,
        target as usize,
    )
}

// The outcome of a reply whose delivery is refused.
fn refused(refusal: Refusal) -> Outcome
    ensures { result ≡ plainly (Refused (number_of refusal)) }
{
    reply_parts::plain(Arrival::Refused(refusal.number()))
}

// Takes in a reply on tables known to be sound, ahead of what is shown of the client's row: refused by 3, 7 or 9. A row that was 0 gets the
// tags that a READ shows.
pub fn take_reply(
    counts: &mut [u32],
    clients: &mut [u32],
    links: &mut [u32],
    keys: &[u32],
    values: &[u32],
    log: &[u32],
    writes: &mut [u32],
    reads: &mut [u32],
    client: u32,
    target: u32,
    tags: &mut [u32; 16],
) -> Outcome
    requires sound { Sound (tables_of counts.old clients.old links.old keys.now values.now log.now writes.old reads.old) }
    requires tags_value { tags.old ≡ replicate 16 0 }
    ensures { Replied client target
        (tables_of counts.old clients.old links.old keys.now values.now
        log.now writes.old reads.old)
        result tags.new
        (tables_of counts.new clients.new links.new keys.now values.now
        log.now writes.new reads.new) }
{
    if let Err(refusal) = refusal_tests::delivery_fault(&*counts, client, target) {
        return refused(refusal);
    }
    let client = client as usize;
    let target = target as usize;
    let link = links::link_at(&*links, client, target);
    let links::Content::Reply(contents) = link.content else {
        return refused(Refusal::NoMessage);
    };
    let state = clients::client_word(clients, client, clients::STATE);
    if state == states::WRITING {
        let arrival = write_replies::set_done(counts, clients, links, client, target);
        return reply_parts::plain(arrival);
    }
    if state == states::ENTERING {
        let arrival = write_replies::entered(
            counts, clients, links, writes, client, target, contents,
        );
        return reply_parts::plain(arrival);
    }
    if state == states::ASKING_KEYS {
        let arrival = read_replies::keys_told(
            counts, clients, links, log, client, target, contents,
        );
        return reply_parts::plain(arrival);
    }
    if state == states::ASKING_SETPOINTS {
        let mask = clients::client_word(clients, client, clients::MASK);
        let tag = clients::client_word(clients, client, clients::TAG);
        if read_replies::got(counts, clients, links, reads, client, target, contents) {
            return reply_parts::plain(Arrival::Wait);
        }
        words::show_words(&*clients, client, clients::TAGS, mask, tags);
        return Outcome {
            arrival: Arrival::Read(tag),
            shown: Some(mask),
        };
    }
    choice_replies::all_told(
        counts, clients, links, keys, values, log, reads, client, target, contents, tags,
    )
}

// Delivers a reply on tables known to be sound: refused by 3, 7 or 9.
pub fn deliver_reply_sound(
    counts: &mut [u32],
    clients: &mut [u32],
    links: &mut [u32],
    keys: &[u32],
    values: &[u32],
    log: &[u32],
    writes: &mut [u32],
    reads: &mut [u32],
    client: u32,
    target: u32,
) -> Delivered
    requires { Sound (tables_of counts.old clients.old links.old keys.now values.now log.now writes.old reads.old) }
    ensures { arrived result
        (tables_of counts.new clients.new links.new keys.now values.now
        log.now writes.new reads.new)
        ≡ deliver_reply client target
        (tables_of counts.old clients.old links.old keys.now values.now
        log.now writes.old reads.old) }
{
    let mut tags = [0u32; 16];
    let outcome = take_reply(
        counts, clients, links, keys, values, log, writes, reads, client, target, &mut tags,
    );
    reply_parts::shown(&*clients, client as usize, outcome, tags)
}

// Loses what a link holds, on tables known to be sound: refused by 3, 7 or 14. What no loss changes is lent all the same: its soundness
// is asked.
pub fn lose_sound(
    counts: &mut [u32],
    clients: &[u32],
    links: &mut [u32],
    keys: &[u32],
    values: &[u32],
    log: &[u32],
    writes: &[u32],
    reads: &[u32],
    client: u32,
    target: u32,
) -> Result<(), Refusal>
    requires { Sound (tables_of counts.old clients.now links.old keys.now values.now log.now writes.now reads.now) }
    ensures { left (answer_by result) (tables_of counts.new clients.now links.new keys.now
        values.now log.now
        writes.now reads.now)
        ≡ lose client target (tables_of counts.old clients.now links.old keys.now
        values.now log.now
        writes.now reads.now) }
{
    refusal_tests::delivery_fault(&*counts, client, target)?;
    losses::lose(counts, links, client as usize, target as usize)
}

// Sends again what was lost on a link, on tables known to be sound: refused by 3, 7 or 15.
pub fn resend_sound(
    counts: &mut [u32],
    clients: &[u32],
    links: &mut [u32],
    keys: &[u32],
    values: &[u32],
    log: &[u32],
    writes: &[u32],
    reads: &[u32],
    client: u32,
    target: u32,
) -> Result<(), Refusal>
    requires { Sound (tables_of counts.old clients.now links.old keys.now values.now log.now writes.now reads.now) }
    ensures { left (answer_by result) (tables_of counts.new clients.now links.new keys.now
        values.now log.now
        writes.now reads.now)
        ≡ resend client target (tables_of counts.old clients.now links.old keys.now
        values.now log.now
        writes.now reads.now) }
{
    refusal_tests::delivery_fault(&*counts, client, target)?;
    losses::resend(counts, clients, links, client as usize, target as usize)
}
