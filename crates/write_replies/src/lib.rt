// The delivery of a reply to a WRITE, on tables known to be sound: a function for each state that waits for one. The client goes on, waits
// or ends.
#![tactic(auto)]

ghost use Rattle.std.specs.Prelude.{◌≡◌, List, ℕ};
ghost use Rattle.keys.specs.Keys.{key_of};
ghost use Rattle.tables.specs.Tables.{tables_of};
ghost use Rattle.tables.specs.Layout.{state_field, count_field, mask_field, put_client_word, client_word};
ghost use Rattle.tables.specs.Links.{HasLinks, put_link};
ghost use Rattle.rules.specs.Answers.{arrived, nothing_shown};
ghost use Rattle.rules.specs.Common.{entering, coordinator, request};
ghost use Rattle.rules.specs.Reply.{on_set_done, on_entered};
ghost use Rattle.step_parts.specs.Filled.{Fillable};
ghost use Rattle.step_parts.specs.Waiting.{KindsFit};
ghost use Rattle.reply_parts.specs.Settled.{GotReady};
ghost use Rattle.write_replies.specs.Ready.{CountFits};

use keys::Key;
use rules::{Arrival, states};
use tables::links::Contents;
use tables::{clients, links, records};

// The second round of a WRITE: its key and mask go to the coordinator.
fn send_entry(clients: &mut [u32], links: &mut [u32], client: usize)
    requires count_fits { CountFits clients.old client }
    requires has_links { HasLinks links.old client }
    ensures clients { clients.new ≡ put_client_word clients.old client state_field entering }
    ensures links { links.new ≡ put_link links.old client coordinator
        (request (key_of (client_word clients.old client count_field) client)
        (client_word clients.old client mask_field)) }
{
    let count = clients::client_word(clients, client, clients::COUNT);
    let mask = clients::client_word(clients, client, clients::MASK);
    clients::put_client_word(clients, client, clients::STATE, states::ENTERING);
    sending::send(
        links,
        client,
        links::COORDINATOR,
        Key::new(count as u8, client as u8),
        mask,
    );
}

// State 1: the last acknowledgement sends the entry; the others only arrive.
pub fn set_done(
    counts: &mut [u32],
    clients: &mut [u32],
    links: &mut [u32],
    client: usize,
    target: usize,
) -> Arrival
    requires fillable { Fillable counts.old links.old client target }
    requires count_fits { CountFits clients.old client }
    requires has_links { HasLinks links.old client × KindsFit links.old client }
    ensures { (keys values log writes reads : List ℕ) →
        arrived (nothing_shown result) (tables_of counts.new clients.new links.new keys values log writes reads)
        ≡ on_set_done client target
        (tables_of counts.old clients.old links.old keys values log writes reads) }
{
    // Kept: (a) the tables for themselves, here and below: a Press would ask for those that a reply leaves as they are.
    reply_parts::settle(counts, links, client, target);
    if step_parts::is_waiting(&*links, client) {
        return Arrival::Wait;
    }
    send_entry(clients, links, client);
    Arrival::Next
}

// State 2: the tag's arrival ends the WRITE.
pub fn entered(
    counts: &mut [u32],
    clients: &mut [u32],
    links: &mut [u32],
    writes: &mut [u32],
    client: usize,
    target: usize,
    contents: Contents,
) -> Arrival
    requires fillable { Fillable counts.old links.old client target }
    requires got_ready { GotReady clients.old writes.old client }
    ensures { (keys values log reads : List ℕ) →
        arrived (nothing_shown result)
        (tables_of counts.new clients.new links.new keys values log writes.new reads)
        ≡ on_entered contents client target
        (tables_of counts.old clients.old links.old keys values log writes.old reads) }
{
    let step = reply_parts::settle(counts, links, client, target);
    let place = clients::client_word(clients, client, clients::RECORD);
    clients::put_client_word(clients, client, clients::TAG, contents.number);
    clients::put_client_word(clients, client, clients::STATE, states::IDLE);
    records::put_record_word(writes, place as usize, records::END, step);
    Arrival::Write(contents.number)
}
