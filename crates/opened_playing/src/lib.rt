// One step of a schedule on sound tables: no table is checked, and each step leaves them sound.
#![tactic(auto)]

ghost use Rattle.std.specs.Prelude.{◌≡◌};
ghost use Rattle.tables.specs.Tables.{tables_of};
ghost use Rattle.soundness.specs.Facts.{Sound};
ghost use Rattle.refusals.specs.Steps.{deliver_reply};
ghost use Rattle.playing.specs.Played.{showing, arrived_played, mask_or_zero, played};

use causes::Refusal;
use playing::Shown;
use schedule::Step;

// Delivers a reply on sound tables, with the mask of its client beside the answer.
fn deliver_reply(
    counts: &mut [u32],
    clients: &mut [u32],
    links: &mut [u32],
    keys: &[u32],
    values: &[u32],
    log: &[u32],
    writes: &mut [u32],
    reads: &mut [u32],
    client: u32,
    target: u32,
) -> Shown
    requires { Sound (tables_of counts.old clients.old links.old keys.now values.now log.now writes.old reads.old) }
    ensures { showing result (tables_of counts.new clients.new links.new keys.now
        values.now log.now writes.new reads.new)
        ≡ arrived_played (mask_or_zero clients.old client) (deliver_reply client target
        (tables_of counts.old clients.old links.old keys.now
        values.now log.now writes.old reads.old)) }
{
    let mask = step_showing::mask_of(&*clients, client);
    let delivered = sound_steps::deliver_reply_sound(
        counts, clients, links, keys, values, log, writes, reads, client, target,
    );
    step_showing::arrived(delivered, mask)
}

// One step on sound tables.
// Kept: (c) a step of sound_steps is lent some tables to be read; behind a Press the borrow checker has no rule for that beside tables to be changed.
pub fn play_opened(
    counts: &mut [u32],
    clients: &mut [u32],
    links: &mut [u32],
    keys: &mut [u32],
    values: &mut [u32],
    log: &mut [u32],
    writes: &mut [u32],
    reads: &mut [u32],
    step: Step,
    setpoints: &[u32],
) -> Shown
    requires { Sound (tables_of counts.old clients.old links.old keys.old values.old log.old writes.old reads.old) }
    ensures { showing result (tables_of counts.new clients.new links.new keys.new
        values.new log.new writes.new reads.new)
        ≡ played step setpoints.now
        (tables_of counts.old clients.old links.old keys.old
        values.old log.old writes.old reads.old) }
{
    match step {
        Step::Unreadable => step_showing::of_step(Err(Refusal::Unreadable)),
        Step::Open(method, servers, panels) => {
            let answer = sound_steps::open(
                counts, clients, links, keys, values, log, &*writes, &*reads, method, servers,
                panels, setpoints,
            );
            step_showing::of_step(answer)
        }
        Step::BeginWrite(client, mask, badge) => step_showing::of_step(
            sound_steps::begin_write_sound(
                counts, clients, links, &*keys, &*values, &*log, writes, &*reads, client, mask,
                badge, setpoints,
            ),
        ),
        Step::BeginRead(client, mask) => step_showing::of_step(sound_steps::begin_read_sound(
            counts, clients, links, &*keys, &*values, &*log, &*writes, reads, client, mask,
        )),
        Step::Request(client, target) => step_showing::of_step(sound_steps::deliver_request_sound(
            counts, &*clients, links, keys, values, log, writes, &*reads, client, target,
        )),
        Step::Reply(client, target) => deliver_reply(
            counts, clients, links, &*keys, &*values, &*log, writes, reads, client, target,
        ),
        Step::Lose(client, target) => step_showing::of_step(sound_steps::lose_sound(
            counts, &*clients, links, &*keys, &*values, &*log, &*writes, &*reads, client, target,
        )),
        Step::Resend(client, target) => step_showing::of_step(sound_steps::resend_sound(
            counts, &*clients, links, &*keys, &*values, &*log, &*writes, &*reads, client, target,
        )),
    }
}
