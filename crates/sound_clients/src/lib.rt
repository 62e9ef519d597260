// Whether the clients are sound, each by the words of its row, by its links (`sound_links`), and in that a busy one waits for something.
// A small function decides each small definition of `soundness/Sound`, in whose words it is named, for every contents of the tables that it
// is not lent. What it asks, `sound_tables` has tested before.
#![tactic(auto)]

ghost use Rattle.std.specs.Prelude.{◌≡◌, ◌<◌};
ghost use Rattle.ranges.specs.All.{all_below};
ghost use Rattle.tables.specs.Rows.{HasRow};
ghost use Rattle.tables.specs.Layout.{client_width};
ghost use Rattle.tables.specs.Tables.{Tables, with_counts, with_clients, with_links, method_of, servers_of, clients_of, state_of};
ghost use Rattle.soundness.specs.Sound.{state_allowed, asked_sound, kept_sound, client_sound};
ghost use Rattle.soundness.specs.Parts.{count_sound, mask_sound, tag_sound, row_sound};
ghost use Rattle.soundness.specs.Asked.{Counted, ClientThere, ClientsThere};

use sound_numbers::{scalars, states};
use tables::{clients, counts};

fn state_sound(counts: &[u32], clients: &[u32], client: usize) -> bool
    requires counted { Counted counts.now }
    requires has_row { HasRow client_width clients.now client }
    ensures { (t : Tables) → let u = with_clients clients.now (with_counts counts.now t) in result ≡ state_allowed (method_of u) client (state_of u client) }
{
    let method = counts::count_at(counts, counts::METHOD);
    let state = clients::client_word(clients, client, clients::STATE);
    states::state_allowed(method, client, state)
}

// A client that writes has a count of at least 1.
fn count_sound(clients: &[u32], client: usize) -> bool
    requires { HasRow client_width clients.now client }
    ensures { (t : Tables) → result ≡ count_sound (with_clients clients.now t) client }
{
    let count = clients::client_word(clients, client, clients::COUNT);
    if states::is_writing(clients::client_word(clients, client, clients::STATE)) {
        return scalars::between(1, count, 255);
    }
    scalars::between(0, count, 255)
}

// A busy client has a mask that is not zero.
fn mask_sound(counts: &[u32], clients: &[u32], client: usize) -> bool
    requires counted { Counted counts.now }
    requires has_row { HasRow client_width clients.now client }
    ensures { (t : Tables) → result ≡ mask_sound (with_clients clients.now (with_counts counts.now t)) client }
{
    let mask = clients::client_word(clients, client, clients::MASK);
    let state = clients::client_word(clients, client, clients::STATE);
    if state == rules::states::IDLE {
        if mask == 0 {
            return true;
        }
        return keys::mask_within(mask, counts::count_at(counts, counts::SERVERS));
    }
    keys::mask_within(mask, counts::count_at(counts, counts::SERVERS))
}

fn tag_sound(counts: &[u32], clients: &[u32], client: usize) -> bool
    requires counted { Counted counts.now }
    requires has_row { HasRow client_width clients.now client }
    ensures { (t : Tables) → result ≡ tag_sound (with_clients clients.now (with_counts counts.now t)) client }
{
    let tag = clients::client_word(clients, client, clients::TAG);
    tag < counts::count_at(counts, counts::ENTRIES)
}

// A client that asks a server for a key keeps it: it is in its range.
fn asked_sound(counts: &[u32], clients: &[u32], client: usize, server: usize) -> bool
    requires counted { Counted counts.now }
    requires server_bound { (server < 16) × HasRow client_width clients.now client }
    ensures { (t : Tables) → result ≡ asked_sound (with_clients clients.now (with_counts counts.now t)) client server }
{
    if clients::client_word(clients, client, clients::STATE) != rules::states::ASKING_SETPOINTS {
        return true;
    }
    if !keys::has_server(clients::client_word(clients, client, clients::MASK), server) {
        return true;
    }
    let word = clients::client_word(clients, client, clients::ASKED + server);
    scalars::key_in_range(counts::count_at(counts, counts::CLIENTS), word)
}

fn kept_sound(counts: &[u32], clients: &[u32], client: usize, server: usize) -> bool
    requires counted { Counted counts.now }
    requires server_bound { (server < 16) × HasRow client_width clients.now client }
    ensures { (t : Tables) → result ≡ kept_sound (with_clients clients.now (with_counts counts.now t)) client server }
{
    let tag = clients::client_word(clients, client, clients::TAGS + server);
    if counts::count_at(counts, counts::ENTRIES) <= tag {
        return false;
    }
    if !scalars::badge_fits(clients::client_word(clients, client, clients::BADGES + server)) {
        return false;
    }
    asked_sound(counts, clients, client, server)
}

// The tags, badges and keys that a client keeps, one of each for each server.
// Kept: (c) as `(0..servers).all(..)` it was not proved: the check unfolds kept_sound before it sees what the closure promises.
fn all_kept_sound(counts: &[u32], clients: &[u32], client: usize) -> bool
    requires counted { Counted counts.now }
    requires has_row { HasRow client_width clients.now client }
    ensures { (t : Tables) → let u = with_clients clients.now (with_counts counts.now t) in
        result ≡ all_below (kept_sound u client) (servers_of u) }
{
    let servers = counts::count_at(counts, counts::SERVERS) as usize;
    for server in 0..servers {
        if !kept_sound(counts, clients, client, server) {
            return false;
        }
    }
    true
}

fn row_sound(counts: &[u32], clients: &[u32], client: usize) -> bool
    requires counted { Counted counts.now }
    requires has_row { HasRow client_width clients.now client }
    ensures { (t : Tables) → result ≡ row_sound (with_clients clients.now (with_counts counts.now t)) client }
{
    if !state_sound(counts, clients, client) {
        return false;
    }
    if !count_sound(clients, client) {
        return false;
    }
    if !mask_sound(counts, clients, client) {
        return false;
    }
    if !tag_sound(counts, clients, client) {
        return false;
    }
    if !scalars::badge_fits(clients::client_word(clients, client, clients::WRITE_BADGE)) {
        return false;
    }
    all_kept_sound(counts, clients, client)
}

fn client_sound(counts: &[u32], clients: &[u32], links: &[u32], client: usize) -> bool
    requires counted { Counted counts.now }
    requires client_there { ClientThere clients.now links.now client }
    ensures { (t : Tables) → result ≡ client_sound (with_links links.now (with_clients clients.now (with_counts counts.now t))) client }
{
    if !row_sound(counts, clients, client) {
        return false;
    }
    if !sound_links::links_sound(counts, clients, links, client) {
        return false;
    }
    if !sound_links::all_received_sound(counts, clients, links, client) {
        return false;
    }
    if clients::client_word(clients, client, clients::STATE) == rules::states::IDLE {
        return true;
    }
    step_parts::is_pending(links, client)
}

pub fn clients_sound(counts: &[u32], clients: &[u32], links: &[u32]) -> bool
    requires counted { Counted counts.now }
    requires clients_there { ClientsThere counts.now clients.now links.now }
    ensures { (t : Tables) → let u = with_links links.now (with_clients clients.now (with_counts counts.now t)) in result ≡ all_below (client_sound u) (clients_of u) }
{
    let rows = counts::count_at(counts, counts::CLIENTS) as usize;
    (0..rows).all(|client| client_sound(counts, clients, links, client))
}
