// A loss and a resend, on tables known to be sound: what a link holds is lost, and what a client's row gives is sent again.
#![tactic(auto)]

ghost use Rattle.std.specs.Prelude.{◌≡◌, List, ℕ};
ghost use Rattle.tables.specs.Tables.{Tables, tables_of, with_clients};
ghost use Rattle.rules.specs.Answers.{left};
ghost use Rattle.rules.specs.Common.{request, set_request};
ghost use Rattle.rules.specs.Results.{answer_by};
ghost use Rattle.step_parts.specs.Filled.{Fillable};
ghost use Rattle.rules.specs.Loss.{link_lost, sent_by, link_resent};
ghost use Rattle.losses.specs.Ready.{Sends, ResendReady};

use causes::Refusal;
use keys::Key;
use rules::states;
use tables::links::{Content, Contents};
use tables::{clients, links};

// Loses what a link holds: 14 where it holds nothing or is lost already.
pub fn lose(
    counts: &mut [u32],
    links: &mut [u32],
    client: usize,
    target: usize,
) -> Result<(), Refusal>
    requires { Fillable counts.old links.old client target }
    ensures { (clients keys values log writes reads : List ℕ) →
        left (answer_by result) (tables_of counts.new clients links.new keys values log writes reads)
        ≡ link_lost client target (tables_of counts.old clients links.old keys values log writes reads) }
{
    let link = links::link_at(&*links, client, target);
    match link.content {
        Content::Nothing | Content::Lost => Err(Refusal::NothingToLose),
        Content::Request(_) | Content::Reply(_) => {
            step_parts::fill(counts, links, client, target, Content::Lost);
            Ok(())
        }
    }
}

// A request with a key, a badge and a number.
fn requesting(key: Key, badge: u32, number: u32) -> Content
    ensures { result ≡ set_request key badge number }
{
    Content::Request(Contents { key, number, badge })
}

// What the client's row gives to be sent again, by its state.
fn sent(clients: &[u32], client: usize, target: usize) -> Content
    requires { Sends clients.now client target }
    ensures { (t : Tables) → result ≡ sent_by client target (with_clients clients.now t) }
{
    let state = clients::client_word(clients, client, clients::STATE);
    let count = clients::client_word(clients, client, clients::COUNT);
    let own = Key::new(count as u8, client as u8);
    if state == states::WRITING {
        let badge = clients::client_word(clients, client, clients::WRITE_BADGE);
        let setpoint = clients::client_word(clients, client, clients::SETPOINTS + target);
        return requesting(own, badge, setpoint);
    }
    if state == states::ENTERING {
        let mask = clients::client_word(clients, client, clients::MASK);
        return requesting(own, 0, mask);
    }
    if state == states::ASKING_SETPOINTS {
        let asked = clients::client_word(clients, client, clients::ASKED + target);
        return requesting(Key::at_word(asked), 0, 0);
    }
    requesting(Key::OPENING, 0, 0)
}

// Sends again what was lost on a link: 15 where it is not lost.
pub fn resend(
    counts: &mut [u32],
    clients: &[u32],
    links: &mut [u32],
    client: usize,
    target: usize,
) -> Result<(), Refusal>
    requires { ResendReady counts.old clients.now links.old client target }
    ensures { (keys values log writes reads : List ℕ) →
        left (answer_by result) (tables_of counts.new clients.now links.new keys values log writes reads)
        ≡ link_resent client target
        (tables_of counts.old clients.now links.old keys values log writes reads) }
{
    let link = links::link_at(&*links, client, target);
    let Content::Lost = link.content else {
        return Err(Refusal::NothingLost);
    };
    let again = sent(clients, client, target);
    step_parts::fill(counts, links, client, target, again);
    Ok(())
}
