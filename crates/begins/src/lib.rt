// The beginnings of transactions, on tables known to be sound; and the get requests with which B's READ goes on.
#![tactic(auto)]

ghost use Rattle.std.specs.Prelude.{◌≡◌, List, ℕ, ◌≤◌, ◌<◌, length, true, cond};
ghost use Rattle.keys.specs.Masks.{has_server};
ghost use Rattle.tables.specs.Tables.{tables_of};
ghost use Rattle.tables.specs.Rows.{HasRow};
ghost use Rattle.tables.specs.Layout.{client_width, entry_width, reads_field};
ghost use Rattle.tables.specs.Links.{link_width, link_row, HasLinks};
ghost use Rattle.coordinator.specs.Log.{HasEntry};
ghost use Rattle.rules.specs.Begin.{sent_gets, kept_asking, begun_write, begun_read};
ghost use Rattle.history.specs.Ready.{BeginReady};
ghost use Rattle.read_asks.specs.Ready.{AskReady};
ghost use Rattle.begins.specs.Ready.{WriteReady};
ghost use Rattle.begins.specs.Cases.{started_write, asked_at, sent_at};

use keys::Key;
use rules::states;
use step_parts::words;
use tables::{clients, counts, log};

// A get request, for the key of the entry at a tag, to a server that the mask has; the client keeps the key, and the tag.
fn send_get(
    clients: &mut [u32],
    links: &mut [u32],
    log: &[u32],
    client: usize,
    mask: u32,
    server: usize,
    tag: u32,
)
    requires has_row { (HasRow client_width clients.old client) × (HasRow link_width links.old (link_row client server)) }
    requires server_bound { (server < 16) × (has_server mask server ≡ true → HasRow entry_width log.now tag) }
    ensures clients { clients.new
        ≡ cond (has_server mask server) (asked_at client log.now server clients.old tag) clients.old }
    ensures links { links.new
        ≡ cond (has_server mask server) (sent_at client log.now server links.old tag) links.old }
{
    if keys::has_server(mask, server) {
        let key = log::entry_key(log, tag as usize);
        clients::put_client_word(clients, client, clients::TAGS + server, tag);
        clients::put_client_word(clients, client, clients::ASKED + server, key.word());
        sending::send(links, client, server, key, 0);
    }
}

// A get request, for its key at a tag, to each masked server; the client keeps the keys, and the tags that they come from. One walk of the
// log finds the tags of all of them.
pub fn send_gets(
    clients: &mut [u32],
    links: &mut [u32],
    log: &[u32],
    client: usize,
    mask: u32,
    tag: usize,
    servers: usize,
)
    requires has_row { (HasRow client_width clients.old client) × (HasLinks links.old client) }
    requires servers_bound { (servers ≤ 16) × HasEntry log.now tag }
    ensures clients { clients.new ≡ kept_asking client mask log.now tag servers clients.old }
    ensures links { links.new ≡ sent_gets client mask log.now tag servers links.old }
{
    let mut tags = [0u32; 16];
    log_search::latest_tags(log, servers, tag, mask, &mut tags);
    for server in 0..servers {
        send_get(clients, links, log, client, mask, server, tags[server]);
    }
}

// A WRITE's client: its state, mask, count, badge and setpoints.
fn start_write(
    clients: &mut [u32],
    client: usize,
    mask: u32,
    place: u32,
    count: u32,
    badge: u32,
    setpoints: &[u32],
)
    requires { (HasRow client_width clients.old client) × (length setpoints.now ≤ 16) }
    ensures { clients.new
        ≡ started_write client mask place count badge setpoints.now (length setpoints.now) clients.old }
{
    sending::start_client(clients, client, states::WRITING, mask, place);
    clients::put_client_word(clients, client, clients::COUNT, count);
    clients::put_client_word(clients, client, clients::WRITE_BADGE, badge);
    words::keep_words(
        clients,
        client,
        clients::SETPOINTS,
        words::EVERY,
        setpoints.len(),
        setpoints,
    );
}

// Begins a WRITE: the next count, a request to each masked server, the record.
#[tactic(auto, unfolding(rules::specs::Begin::begun_write))]
pub fn begin_write(
    counts: &mut [u32],
    clients: &mut [u32],
    links: &mut [u32],
    writes: &mut [u32],
    client: usize,
    mask: u32,
    badge: u32,
    setpoints: &[u32],
)
    requires { WriteReady counts.old clients.old links.old writes.old client setpoints.now }
    ensures { (keys values log reads : List ℕ) →
        tables_of counts.new clients.new links.new keys values log writes.new reads
        ≡ begun_write client mask badge setpoints.now
        (tables_of counts.old clients.old links.old keys values log writes.old reads) }
{
    // Kept: (a) four tables for themselves, here and below: a Press would ask for those that a begin leaves as they are.
    let count = clients::client_word(clients, client, clients::COUNT) + 1;
    let place = counts::count_at(counts, counts::WRITES);
    start_write(clients, client, mask, place, count, badge, setpoints);
    sending::send_sets(
        links,
        client,
        mask,
        Key::new(count as u8, client as u8),
        badge,
        setpoints,
    );
    history::begin(counts, writes, counts::WRITES, client as u32, count, badge);
}

// Begins a READ: what its method asks first, and the record.
pub fn begin_read(
    counts: &mut [u32],
    clients: &mut [u32],
    links: &mut [u32],
    reads: &mut [u32],
    client: usize,
    mask: u32,
)
    requires ask_ready { AskReady counts.old clients.old links.old client }
    requires begin_ready { (BeginReady counts.old reads.old reads_field) × (client < 16) }
    ensures { (keys values log writes : List ℕ) →
        tables_of counts.new clients.new links.new keys values log writes reads.new
        ≡ begun_read client mask
        (tables_of counts.old clients.old links.old keys values log writes reads.old) }
{
    read_asks::ask(&*counts, clients, links, client, mask);
    history::begin(counts, reads, counts::READS, client as u32, mask, 0);
}
