// The delivery of a reply to a READ by method C, on tables known to be sound: the last one chooses the tag, and the READ ends by it.
#![tactic(auto)]

ghost use Rattle.std.specs.Prelude.{◌≡◌, List, ℕ, replicate};
ghost use Rattle.tables.specs.Tables.{tables_of};
ghost use Rattle.rules.specs.Reply.{on_all};
ghost use Rattle.step_parts.specs.Filled.{Fillable};
ghost use Rattle.choice.specs.Ready.{ChoiceReady};
ghost use Rattle.reply_parts.specs.Shown.{Shows};
ghost use Rattle.choice_replies.specs.Ready.{Concludable, FinishedByC, AllReady};

use reply_parts::Outcome;
use rules::Arrival;
use tables::links::Contents;
use tables::{clients, counts, links};

// A READ ends under C: the tag is chosen, setpoints and badges at it are kept, and the READ finishes. A row that was 0 gets the tags that
// they come from. The answer is the tag chosen.
fn finish_by_c(
    clients: &mut [u32],
    keys: &[u32],
    values: &[u32],
    log: &[u32],
    reads: &mut [u32],
    client: usize,
    mask: u32,
    servers: usize,
    place: u32,
    step: u32,
    tags: &mut [u32; 16],
) -> u32
    requires choice_ready { ChoiceReady clients.old keys.now values.now client servers }
    requires concludable { Concludable clients.old keys.now log.now reads.old client mask servers place }
    requires tags_value { tags.old ≡ replicate 16 0 }
    ensures { FinishedByC clients.old keys.now values.now log.now reads.old
        client mask servers place step result tags.new clients.new reads.new }
{
    let entries = clients::client_word(clients, client, clients::RECEIVED + links::COORDINATOR);
    let tag = choice::conclude(
        clients,
        keys,
        values,
        log,
        client,
        mask,
        servers,
        entries as usize,
        tags,
    );
    reply_parts::finish(clients, reads, client, place, tag, step);
    tag
}

// State 5: an n has come; when all replies are in, the READ ends.
pub fn all_told(
    counts: &mut [u32],
    clients: &mut [u32],
    links: &mut [u32],
    keys: &[u32],
    values: &[u32],
    log: &[u32],
    reads: &mut [u32],
    client: usize,
    target: usize,
    contents: Contents,
    tags: &mut [u32; 16],
) -> Outcome
    requires fillable { Fillable counts.old links.old client target }
    requires all_ready { AllReady counts.old clients.old links.old keys.now values.now log.now reads.old client target
        contents.number }
    requires tags_value { tags.old ≡ replicate 16 0 }
    ensures { (writes : List ℕ) →
        Shows (on_all contents client target
        (tables_of counts.old clients.old links.old keys.now values.now
        log.now writes reads.old))
        result tags.new client
        (tables_of counts.new clients.new links.new keys.now values.now
        log.now writes reads.new) }
{
    // Kept: (a) the tables for themselves: a Press would ask for those that a reply leaves as they are.
    let servers = counts::count_at(counts, counts::SERVERS);
    let mask = clients::client_word(clients, client, clients::MASK);
    let place = clients::client_word(clients, client, clients::RECORD);
    let step = reply_parts::settle(counts, links, client, target);
    clients::put_client_word(clients, client, clients::RECEIVED + target, contents.number);
    if step_parts::is_waiting(&*links, client) {
        return reply_parts::plain(Arrival::Wait);
    }
    let tag = finish_by_c(
        clients,
        keys,
        values,
        log,
        reads,
        client,
        mask,
        servers as usize,
        place,
        step,
        tags,
    );
    Outcome {
        arrival: Arrival::Read(tag),
        shown: Some(mask),
    }
}
