// A client that starts, and the requests that it puts on its links: one, and one for each masked server.
#![tactic(auto)]

ghost use Rattle.std.specs.Prelude.{◌≡◌, ◌≤◌, ◌<◌, length, cond};
ghost use Rattle.keys.specs.Masks.{has_server};
ghost use Rattle.tables.specs.Rows.{HasRow};
ghost use Rattle.tables.specs.Layout.{client_width};
ghost use Rattle.tables.specs.Links.{link_width, link_row, HasLinks, put_link};
ghost use Rattle.rules.specs.Common.{started_client, request, set_request};
ghost use Rattle.rules.specs.Begin.{sent_sets, sent_asks};

use keys::Key;
use tables::links::Contents;
use tables::{clients, links};

// The client is in a state, has a mask, and its record stands at a place.
pub fn start_client(clients: &mut [u32], client: usize, state: u32, mask: u32, place: u32)
    requires { HasRow client_width clients.old client }
    ensures { clients.new ≡ started_client state mask place client clients.old }
{
    clients::put_client_word(clients, client, clients::STATE, state);
    clients::put_client_word(clients, client, clients::MASK, mask);
    clients::put_client_word(clients, client, clients::RECORD, place);
}

// A request with a key, a badge and a number.
fn send_badged(links: &mut [u32], client: usize, target: usize, key: Key, badge: u32, number: u32)
    requires { HasRow link_width links.old (link_row client target) }
    ensures { links.new ≡ put_link links.old client target (set_request key badge number) }
{
    let contents = Contents { key, number, badge };
    links::put_link(
        links,
        client,
        target,
        links::Link {
            content: links::Content::Request(contents),
        },
    );
}

// A request with a key and a number.
pub fn send(links: &mut [u32], client: usize, target: usize, key: Key, number: u32)
    requires { HasRow link_width links.old (link_row client target) }
    ensures { links.new ≡ put_link links.old client target (request key number) }
{
    send_badged(links, client, target, key, 0, number);
}

// A request with a key, a badge and a number to a server, if the mask has it.
fn send_masked(
    links: &mut [u32],
    client: usize,
    mask: u32,
    key: Key,
    badge: u32,
    number: u32,
    server: usize,
)
    requires { (HasRow link_width links.old (link_row client server)) × (server < 16) }
    ensures { links.new
        ≡ cond (has_server mask server) (put_link links.old client server (set_request key badge number)) links.old }
{
    if keys::has_server(mask, server) {
        send_badged(links, client, server, key, badge, number);
    }
}

// A set request to each masked server.
pub fn send_sets(
    links: &mut [u32],
    client: usize,
    mask: u32,
    key: Key,
    badge: u32,
    setpoints: &[u32],
)
    requires { (HasLinks links.old client) × (length setpoints.now ≤ 16) }
    ensures { links.new
        ≡ sent_sets client mask key badge setpoints.now (length setpoints.now) links.old }
{
    for (server, setpoint) in setpoints.iter().enumerate() {
        send_masked(links, client, mask, key, badge, *setpoint, server);
    }
}

// A request that carries nothing to each masked server.
pub fn send_asks(links: &mut [u32], client: usize, mask: u32, servers: usize)
    requires { (HasLinks links.old client) × (servers ≤ 16) }
    ensures { links.new ≡ sent_asks client mask servers links.old }
{
    // Kept: (d) beside send_sets: a loop for both would take a closure, and clauses that say of it what each loop says by itself.
    for server in 0..servers {
        send_masked(links, client, mask, Key::OPENING, 0, 0, server);
    }
}
