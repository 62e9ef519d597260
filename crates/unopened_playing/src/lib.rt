// The steps before any opening, which change nothing but where they open.
#![tactic(auto)]

ghost use Rattle.std.specs.Prelude.{◌≡◌};
ghost use Rattle.tables.specs.Tables.{tables_of, method_of};
ghost use Rattle.playing.specs.Played.{showing, played};

use causes::Refusal;
use playing::Shown;
use printing::Word;
use schedule::Step;

// One step before any opening: a readable one but an opening is refused, since the tables are not sound.
// Kept: (c) a step of sound_steps is lent some tables to be read; behind a Press the borrow checker has no rule for that beside tables to be changed.
pub fn play_unopened(
    counts: &mut [u32],
    clients: &mut [u32],
    links: &mut [u32],
    keys: &mut [u32],
    values: &mut [u32],
    log: &mut [u32],
    writes: &mut [u32],
    reads: &mut [u32],
    step: Step,
    setpoints: &[u32],
) -> Shown
    requires { method_of (tables_of counts.old clients.old links.old keys.old
        values.old log.old writes.old reads.old) ≡ 0 }
    ensures { showing result (tables_of counts.new clients.new links.new keys.new
        values.new log.new writes.new reads.new)
        ≡ played step setpoints.now
        (tables_of counts.old clients.old links.old keys.old
        values.old log.old writes.old reads.old) }
{
    match step {
        Step::Unreadable => step_showing::of_step(Err(Refusal::Unreadable)),
        Step::Open(method, servers, panels) => {
            let answer = sound_steps::open(
                counts, clients, links, keys, values, log, &*writes, &*reads, method, servers,
                panels, setpoints,
            );
            step_showing::of_step(answer)
        }
        Step::BeginWrite(_, _, _) => step_showing::of_step(Err(Refusal::NotSound)),
        Step::BeginRead(_, _) => step_showing::of_step(Err(Refusal::NotSound)),
        Step::Request(_, _) => step_showing::of_step(Err(Refusal::NotSound)),
        Step::Reply(client, _) => {
            // A delivered reply has its client's mask beside it, refused or not.
            let mask = step_showing::mask_of(&*clients, client);
            step_showing::noted(Word::No(Refusal::NotSound.number() as u32), mask)
        }
        Step::Lose(_, _) => step_showing::of_step(Err(Refusal::NotSound)),
        Step::Resend(_, _) => step_showing::of_step(Err(Refusal::NotSound)),
    }
}
