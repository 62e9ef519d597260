// The delivery of a request, on tables known to be sound: the target answers, and the reply takes the request's place.
#![tactic(auto)]

ghost use Rattle.std.specs.Prelude.{◌≡◌, List, ℕ, ◌<◌};
ghost use Rattle.tables.specs.Tables.{tables_of};
ghost use Rattle.tables.specs.Rows.{HasRow};
ghost use Rattle.tables.specs.Layout.{client_width, client_word, state_field};
ghost use Rattle.tables.specs.Links.{targets};
ghost use Rattle.rules.specs.Answers.{left};
ghost use Rattle.rules.specs.Results.{answer_by};
ghost use Rattle.step_parts.specs.Filled.{Fillable};
ghost use Rattle.rules.specs.Request.{on_request_in, request_delivered};
ghost use Rattle.requests.specs.Ready.{Asks, RequestReady};

use causes::Refusal;
use rules::states;
use tables::links::Contents;
use tables::{clients, links};

// A request is answered by what the client's state asks for.
fn answer_in_state(
    counts: &mut [u32],
    clients: &[u32],
    links: &mut [u32],
    keys: &mut [u32],
    values: &mut [u32],
    log: &mut [u32],
    writes: &mut [u32],
    client: usize,
    target: usize,
    contents: Contents,
) -> Result<(), Refusal>
    requires fillable { Fillable counts.old links.old client target }
    requires has_row { (HasRow client_width clients.now client) × (target < targets) }
    requires asks { Asks counts.old clients.now keys.old values.old log.old writes.old client target }
    ensures { (reads : List ℕ) →
        left (answer_by result) (tables_of counts.new clients.now links.new keys.new values.new log.new writes.new reads)
        ≡ on_request_in (client_word clients.now client state_field) contents client target
        (tables_of counts.old clients.now links.old keys.old values.old log.old writes.old reads) }
{
    let state = clients::client_word(clients, client, clients::STATE);
    if state == states::WRITING {
        return server_requests::set(counts, links, keys, values, client, target, contents);
    }
    if state == states::ENTERING {
        return coordinator_requests::enter(
            counts, clients, links, log, writes, client, target, contents,
        );
    }
    if state == states::ASKING_KEYS {
        answers::which_keys(counts, links, client, target);
        return Ok(());
    }
    if state == states::ASKING_SETPOINTS {
        return server_requests::get(counts, links, &*keys, &*values, client, target, contents);
    }
    answers::get_all(counts, links, client, target);
    Ok(())
}

// Delivers the request of a client to a target: 9 where the link has none, 8 where the target is full or lacks the key.
pub fn deliver_request(
    counts: &mut [u32],
    clients: &[u32],
    links: &mut [u32],
    keys: &mut [u32],
    values: &mut [u32],
    log: &mut [u32],
    writes: &mut [u32],
    client: usize,
    target: usize,
) -> Result<(), Refusal>
    requires { RequestReady counts.old clients.now links.old keys.old values.old log.old writes.old client target }
    ensures { (reads : List ℕ) →
        left (answer_by result) (tables_of counts.new clients.now links.new keys.new values.new log.new writes.new reads)
        ≡ request_delivered client target
        (tables_of counts.old clients.now links.old keys.old values.old log.old writes.old reads) }
{
    let link = links::link_at(&*links, client, target);
    let links::Content::Request(contents) = link.content else {
        return Err(Refusal::NoMessage);
    };
    answer_in_state(
        counts, clients, links, keys, values, log, writes, client, target, contents,
    )
}
