// The delivery of a reply to a READ by method A or B, on tables known to be sound: a function for each state that waits for one. The client
// goes on, waits or ends. `choice_replies` has that of a READ by method C.
#![tactic(auto)]

ghost use Rattle.std.specs.Prelude.{◌≡◌, cond, List, ℕ, ◌<◌};
ghost use Rattle.tables.specs.Tables.{tables_of};
ghost use Rattle.tables.specs.Layout.{mask_field, tag_field, client_word};
ghost use Rattle.tables.specs.Links.{HasLinks};
ghost use Rattle.rules.specs.declared.Arrival.TheVariants.{Wait};
ghost use Rattle.rules.specs.Answers.{arrived, nothing_shown};
ghost use Rattle.rules.specs.Reply.{on_keys, on_got};
ghost use Rattle.step_parts.specs.Filled.{Fillable};
ghost use Rattle.step_parts.specs.Waiting.{KindsFit};
ghost use Rattle.reply_parts.specs.Settled.{GotReady};
ghost use Rattle.read_replies.specs.Ready.{KeysReady, row_shown};

use rules::{Arrival, states};
use tables::links::Contents;
use tables::{clients, counts};

// State 3: the last tag and its keys have come; each masked server is asked for its key.
pub fn keys_told(
    counts: &mut [u32],
    clients: &mut [u32],
    links: &mut [u32],
    log: &[u32],
    client: usize,
    target: usize,
    contents: Contents,
) -> Arrival
    requires fillable { Fillable counts.old links.old client target }
    requires has_links { HasLinks links.old client }
    requires keys_ready { KeysReady counts.old clients.old log.now client contents.number }
    ensures { (keys values writes reads : List ℕ) →
        arrived (nothing_shown result)
        (tables_of counts.new clients.new links.new keys values log.now writes reads)
        ≡ on_keys contents client target
        (tables_of counts.old clients.old links.old keys values log.now writes reads) }
{
    // Kept: (a) the tables for themselves, here and below: a Press would ask for those that a reply leaves as they are.
    let servers = counts::count_at(counts, counts::SERVERS);
    let mask = clients::client_word(clients, client, clients::MASK);
    let tag = contents.number - 1;
    reply_parts::settle(counts, links, client, target);
    clients::put_client_word(clients, client, clients::TAG, tag);
    clients::put_client_word(clients, client, clients::STATE, states::ASKING_SETPOINTS);
    begins::send_gets(
        clients,
        links,
        log,
        client,
        mask,
        tag as usize,
        servers as usize,
    );
    Arrival::Next
}

// State 4: a setpoint has come, with its badge; the last one ends the READ. The answer is whether the client still waits; where it does
// not, the READ shows what the client's row has.
pub fn got(
    counts: &mut [u32],
    clients: &mut [u32],
    links: &mut [u32],
    reads: &mut [u32],
    client: usize,
    target: usize,
    contents: Contents,
) -> bool
    requires fillable { Fillable counts.old links.old client target }
    requires has_links { (HasLinks links.old client) × KindsFit links.old client × (target < 16) }
    requires got_ready { GotReady clients.old reads.old client }
    ensures { (keys values log writes : List ℕ) →
        arrived (cond result (nothing_shown Wait)
        (row_shown (client_word clients.old client tag_field) clients.new client
        (client_word clients.old client mask_field)))
        (tables_of counts.new clients.new links.new keys values log writes reads.new)
        ≡ on_got contents client target
        (tables_of counts.old clients.old links.old keys values log writes reads.old) }
{
    let place = clients::client_word(clients, client, clients::RECORD);
    let tag = clients::client_word(clients, client, clients::TAG);
    let step = reply_parts::settle(counts, links, client, target);
    clients::put_client_word(
        clients,
        client,
        clients::SETPOINTS + target,
        contents.number,
    );
    clients::put_client_word(clients, client, clients::BADGES + target, contents.badge);
    if step_parts::is_waiting(&*links, client) {
        return true;
    }
    reply_parts::finish(clients, reads, client, place, tag, step);
    false
}
