// The check of the links of a client: each holds only what its state sends or gets back, and what has been received stands beside them.
// It stands over the check of a message and below that of clients, so that an edit of either does not prove it.
#![tactic(auto)]

ghost use Rattle.std.specs.Prelude.{◌≡◌, ◌<◌, ◌&&◌};
ghost use Rattle.ranges.specs.All.{all_below};
ghost use Rattle.tables.specs.Rows.{HasRow};
ghost use Rattle.tables.specs.Links.{link_width, link_row, targets};
ghost use Rattle.tables.specs.Tables.{Tables, with_counts, with_clients, with_links};
ghost use Rattle.rules.specs.Common.{writing, asking_setpoints};
ghost use Rattle.soundness.specs.Sound.{key_on, request_sound, reply_sound, badge_sound, link_sound, received_sound};
ghost use Rattle.soundness.specs.Parts.{number_on, badge_on, expects};
ghost use Rattle.soundness.specs.Asked.{Counted, LinkThere, ClientThere};

use sound_numbers::{scalars, states};
use tables::{clients, links};

fn request_on(counts: &[u32], links: &[u32], state: u32, client: usize, target: usize) -> bool
    requires counted { Counted counts.now }
    requires has_row { HasRow link_width links.now (link_row client target) }
    ensures { (t : Tables) → let u = with_links links.now (with_counts counts.now t) in
        result ≡ (request_sound state client (key_on u client target) (number_on u client target) u && badge_sound writing state (badge_on u client target)) }
{
    let word = links::link_word(links, client, target, links::KEY);
    let number = links::link_word(links, client, target, links::NUMBER);
    if !sound_messages::request_sound(counts, state, client, word, number) {
        return false;
    }
    let badge = links::link_word(links, client, target, links::BADGE);
    sound_messages::badge_sound(rules::states::WRITING, state, badge)
}

fn reply_on(counts: &[u32], links: &[u32], state: u32, client: usize, target: usize) -> bool
    requires counted { Counted counts.now }
    requires target_lt_targets { (target < targets) × HasRow link_width links.now (link_row client target) }
    ensures { (t : Tables) → let u = with_links links.now (with_counts counts.now t) in
        result ≡ (reply_sound state target (number_on u client target) u && badge_sound asking_setpoints state (badge_on u client target)) }
{
    let number = links::link_word(links, client, target, links::NUMBER);
    if !sound_messages::reply_sound(counts, state, target, number) {
        return false;
    }
    let badge = links::link_word(links, client, target, links::BADGE);
    sound_messages::badge_sound(rules::states::ASKING_SETPOINTS, state, badge)
}

fn link_sound(counts: &[u32], clients: &[u32], links: &[u32], client: usize, target: usize) -> bool
    requires counted { Counted counts.now }
    requires link_there { LinkThere clients.now links.now client target }
    ensures { (t : Tables) → result ≡ link_sound (with_links links.now (with_clients clients.now (with_counts counts.now t))) client target }
{
    let kind = links::link_word(links, client, target, links::KIND);
    if kind == 0 {
        return true;
    }
    let state = clients::client_word(clients, client, clients::STATE);
    let mask = clients::client_word(clients, client, clients::MASK);
    if !states::uses(state, mask, target) {
        return false;
    }
    if kind == 1 {
        return request_on(counts, links, state, client, target);
    }
    if kind == 2 {
        return reply_on(counts, links, state, client, target);
    }
    kind == 3
}

pub fn links_sound(counts: &[u32], clients: &[u32], links: &[u32], client: usize) -> bool
    requires counted { Counted counts.now }
    requires client_there { ClientThere clients.now links.now client }
    ensures { (t : Tables) → result ≡ all_below (link_sound (with_links links.now (with_clients clients.now (with_counts counts.now t))) client) targets }
{
    (0..links::TARGETS).all(|target| link_sound(counts, clients, links, client, target))
}

// Whether something must have been received: the client asks all, this target among them, and its link is empty.
fn expects(clients: &[u32], links: &[u32], client: usize, target: usize) -> bool
    requires { LinkThere clients.now links.now client target }
    ensures { (t : Tables) → result ≡ expects (with_links links.now (with_clients clients.now t)) client target }
{
    let state = clients::client_word(clients, client, clients::STATE);
    if state != rules::states::ASKING_ALL {
        return false;
    }
    let mask = clients::client_word(clients, client, clients::MASK);
    if !states::uses(state, mask, target) {
        return false;
    }
    links::is_empty(links, client, target)
}

fn received_sound(
    counts: &[u32],
    clients: &[u32],
    links: &[u32],
    client: usize,
    target: usize,
) -> bool
    requires counted { Counted counts.now }
    requires link_there { LinkThere clients.now links.now client target }
    ensures { (t : Tables) → result ≡ received_sound (with_links links.now (with_clients clients.now (with_counts counts.now t))) client target }
{
    let received = clients::client_word(clients, client, clients::RECEIVED + target);
    if expects(clients, links, client, target) {
        return scalars::between(1, received, sound_messages::holding(counts, target));
    }
    received == 0
}

pub fn all_received_sound(counts: &[u32], clients: &[u32], links: &[u32], client: usize) -> bool
    requires counted { Counted counts.now }
    requires client_there { ClientThere clients.now links.now client }
    ensures { (t : Tables) → result ≡ all_below (received_sound (with_links links.now (with_clients clients.now (with_counts counts.now t))) client) targets }
{
    (0..links::TARGETS).all(|target| received_sound(counts, clients, links, client, target))
}
