// How the coordinator answers an enter request, on tables known to be sound.
#![tactic(auto)]

ghost use Rattle.std.specs.Prelude.{◌≡◌, List, ℕ};
ghost use Rattle.tables.specs.Tables.{tables_of};
ghost use Rattle.rules.specs.Answers.{left};
ghost use Rattle.rules.specs.Results.{answer_by};
ghost use Rattle.step_parts.specs.Filled.{Fillable};
ghost use Rattle.rules.specs.Request.{on_new_enter, on_enter};
ghost use Rattle.coordinator_requests.specs.Ready.{Enterable};

use causes::Refusal;
use tables::links::Contents;
use tables::{clients, counts, records};

// An enter request whose key the log lacks appends to it; the new place is the tag, and it goes into the WRITE's record.
fn enter_new(
    counts: &mut [u32],
    clients: &[u32],
    links: &mut [u32],
    log: &mut [u32],
    writes: &mut [u32],
    client: usize,
    target: usize,
    contents: Contents,
) -> Result<(), Refusal>
    requires fillable { Fillable counts.old links.old client target }
    requires enterable { Enterable counts.old clients.now log.old writes.old client }
    ensures { (keys values reads : List ℕ) →
        left (answer_by result) (tables_of counts.new clients.now links.new keys values log.new writes.new reads)
        ≡ on_new_enter contents client target (tables_of counts.old clients.now links.old keys values
        log.old writes.old reads) }
{
    let tag = counts::count_at(counts, counts::ENTRIES);
    if coordinator::enter(counts, log, contents.key, contents.number) {
        let place = clients::client_word(clients, client, clients::RECORD);
        records::put_record_word(writes, place as usize, records::TAG, tag);
        answers::answer(counts, links, client, target, tag);
        return Ok(());
    }
    Err(Refusal::Unanswerable)
}

// State 2: an enter request whose key the log has already is answered with its first tag, also where the log is full; any other appends.
pub fn enter(
    counts: &mut [u32],
    clients: &[u32],
    links: &mut [u32],
    log: &mut [u32],
    writes: &mut [u32],
    client: usize,
    target: usize,
    contents: Contents,
) -> Result<(), Refusal>
    requires fillable { Fillable counts.old links.old client target }
    requires enterable { Enterable counts.old clients.now log.old writes.old client }
    ensures { (keys values reads : List ℕ) →
        left (answer_by result) (tables_of counts.new clients.now links.new keys values log.new
        writes.new reads)
        ≡ on_enter contents client target (tables_of counts.old clients.now links.old keys values
        log.old writes.old reads) }
{
    let entries = counts::count_at(counts, counts::ENTRIES) as usize;
    let tag = log_search::find(&*log, entries, contents.key);
    if tag < entries {
        answers::answer(counts, links, client, target, tag as u32);
        return Ok(());
    }
    enter_new(
        counts, clients, links, log, writes, client, target, contents,
    )
}
