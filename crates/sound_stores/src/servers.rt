// The versions of each server: the first bears the opening's key, and every key and badge is in its range.
ghost use Rattle.std.specs.Prelude.{ℕ, Bool, ◌≡◌, ◌≤◌, ◌<◌};
ghost use Rattle.ranges.specs.All.{all_below};
ghost use Rattle.tables.specs.Rows.{HasRow};
ghost use Rattle.tables.specs.Layout.{server_places, version_word, version_badge, HasValues};
ghost use Rattle.tables.specs.Tables.{Tables, with_counts, with_versions, servers_of};
ghost use Rattle.soundness.specs.Sound.{key_in_range, badge_fits, server_sound};
ghost use Rattle.soundness.specs.Parts.{key_owned, key_counted};
ghost use Rattle.soundness.specs.Asked.{Counted, VersionsThere};

use sound_numbers::scalars;
use tables::{counts, versions};

// Whether each number below n passes a test. All are looked at, so that the compiler makes several of a test of one comparison at once.
fn all_seen<F: Fn(usize) -> bool>(n: usize, test: F) -> bool
    requires { (i : ℕ) → i < n → F.pre test i }
    ensures { (p : ℕ → Bool) → ((i : ℕ) (b : Bool) → F.post test i b → b ≡ p i) → result ≡ all_below p n }
{
    let mut all = true;
    for i in 0..n {
        if !test(i) {
            all = false;
        }
    }
    all
}

// The keys of the first versions of a server, one comparison of each a loop. All are looked at, so that the compiler compares several at
// once; it does not where a key has more than one comparison. Whether they have counts, but for the opening's:
fn keys_counted(keys: &[u32], server: usize, held: usize) -> bool
    requires { (held ≤ server_places) × HasRow server_places keys.now server }
    ensures { result ≡ all_below (λ place. key_counted (version_word keys.now server place)) held }
{
    all_seen(
        held,
        |place| scalars::key_counted(versions::key_word(keys, server, place)),
    )
}

// Whether they have 16 bits, and are of clients up to the last.
fn keys_owned(keys: &[u32], server: usize, held: usize, last: u32) -> bool
    requires { (held ≤ server_places) × HasRow server_places keys.now server }
    ensures { result ≡ all_below (λ place. key_owned last (version_word keys.now server place)) held }
{
    all_seen(
        held,
        |place| scalars::key_owned(last, versions::key_word(keys, server, place)),
    )
}

fn keys_in_range(keys: &[u32], server: usize, held: usize, clients: u32) -> bool
    requires held_le_server_places { (held ≤ server_places) × HasRow server_places keys.now server }
    requires clients_nonzero { (0 < clients) × (clients ≤ 16) }
    ensures { result ≡ all_below (λ place. key_in_range clients (version_word keys.now server place)) held }
{
    if !keys_counted(keys, server, held) {
        return false;
    }
    keys_owned(keys, server, held, clients - 1)
}

// Their badges. All are looked at, so that the compiler tests several at once.
fn badges_fit(values: &[u32], server: usize, held: usize) -> bool
    requires { (held ≤ server_places) × HasValues values.now server }
    ensures { result ≡ all_below (λ place. badge_fits (version_badge values.now server place)) held }
{
    all_seen(
        held,
        |place| scalars::badge_fits(versions::version_badge(values, server, place)),
    )
}

fn server_sound(counts: &[u32], keys: &[u32], values: &[u32], server: usize) -> bool
    requires server_bound { (server < 16) × HasRow server_places keys.now server × HasValues values.now server }
    requires counted { Counted counts.now }
    ensures { (t : Tables) →
        result ≡ server_sound (with_versions keys.now values.now (with_counts counts.now t)) server }
{
    let held = counts::count_at(counts, counts::HELD + server);
    if !scalars::between(1, held, versions::PLACES as u32) {
        return false;
    }
    if versions::key_word(keys, server, 0) != 0 {
        return false;
    }
    let clients = counts::count_at(counts, counts::CLIENTS);
    if !keys_in_range(keys, server, held as usize, clients) {
        return false;
    }
    badges_fit(values, server, held as usize)
}

pub fn servers_sound(counts: &[u32], keys: &[u32], values: &[u32]) -> bool
    requires counted { Counted counts.now }
    requires versions_there { VersionsThere counts.now keys.now values.now }
    ensures { (t : Tables) → let u = with_versions keys.now values.now (with_counts counts.now t) in
        result ≡ all_below (server_sound u) (servers_of u) }
{
    let servers = counts::count_at(counts, counts::SERVERS) as usize;
    (0..servers).all(|server| server_sound(counts, keys, values, server))
}
