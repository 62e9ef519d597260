// How a server answers the requests that look at its versions, on tables known to be sound.
#![tactic(auto)]

ghost use Rattle.std.specs.Prelude.{◌≡◌, List, ℕ};
ghost use Rattle.tables.specs.Tables.{tables_of};
ghost use Rattle.rules.specs.Answers.{left};
ghost use Rattle.rules.specs.Results.{answer_by};
ghost use Rattle.step_parts.specs.Filled.{Fillable};
ghost use Rattle.rules.specs.Request.{on_new_set, on_set, on_get};
ghost use Rattle.server_requests.specs.Ready.{AtServer};

use causes::Refusal;
use tables::links::Contents;
use tables::{counts, versions};

// A set request whose key the server does not hold appends its version.
fn set_new(
    counts: &mut [u32],
    links: &mut [u32],
    keys: &mut [u32],
    values: &mut [u32],
    client: usize,
    target: usize,
    contents: Contents,
) -> Result<(), Refusal>
    requires fillable { Fillable counts.old links.old client target }
    requires at_server { AtServer counts.old keys.old values.old target }
    ensures { (clients log writes reads : List ℕ) →
        left (answer_by result) (tables_of counts.new clients links.new keys.new values.new log writes reads)
        ≡ on_new_set contents client target (tables_of counts.old clients links.old keys.old
        values.old log writes reads) }
{
    if server::append(
        counts,
        keys,
        values,
        target,
        contents.key,
        contents.badge,
        contents.number,
    ) {
        answers::answer(counts, links, client, target, 0);
        return Ok(());
    }
    Err(Refusal::Unanswerable)
}

// State 1: a set request whose key the server holds already is acknowledged, also where the server is full; any other appends its version.
pub fn set(
    counts: &mut [u32],
    links: &mut [u32],
    keys: &mut [u32],
    values: &mut [u32],
    client: usize,
    target: usize,
    contents: Contents,
) -> Result<(), Refusal>
    requires fillable { Fillable counts.old links.old client target }
    requires at_server { AtServer counts.old keys.old values.old target }
    ensures { (clients log writes reads : List ℕ) →
        left (answer_by result) (tables_of counts.new clients links.new keys.new values.new log writes reads)
        ≡ on_set contents client target (tables_of counts.old clients links.old keys.old
        values.old log writes reads) }
{
    let held = counts::count_at(counts, counts::HELD + target) as usize;
    if server::find(&*keys, target, held, contents.key) < held {
        answers::answer(counts, links, client, target, 0);
        return Ok(());
    }
    set_new(counts, links, keys, values, client, target, contents)
}

// State 4: a get request is answered by the first version that bears its key, with its badge and its setpoint.
pub fn get(
    counts: &mut [u32],
    links: &mut [u32],
    keys: &[u32],
    values: &[u32],
    client: usize,
    target: usize,
    contents: Contents,
) -> Result<(), Refusal>
    requires fillable { Fillable counts.old links.old client target }
    requires at_server { AtServer counts.old keys.now values.now target }
    ensures { (clients log writes reads : List ℕ) →
        left (answer_by result) (tables_of counts.new clients links.new keys.now values.now log writes reads)
        ≡ on_get contents client target (tables_of counts.old clients links.old keys.now values.now log writes reads) }
{
    let held = counts::count_at(counts, counts::HELD + target) as usize;
    let place = server::find(keys, target, held, contents.key);
    if place < held {
        let badge = versions::version_badge(values, target, place);
        let setpoint = versions::version_setpoint(values, target, place);
        answers::answer_badged(counts, links, client, target, badge, setpoint);
        return Ok(());
    }
    Err(Refusal::Unanswerable)
}
