// A station's part: its versions, in order of arrival. A station is a server here.
#![tactic(auto)]

ghost use Rattle.std.specs.Prelude.{◌≡◌, ◌+◌, ◌*◌, ◌≤◌, ◌<◌, length};
ghost use Rattle.tables.specs.Layout.{server_places};
ghost use Rattle.server.specs.Held.{Room, append_left, appended, first_bearing};

use keys::Key;
use tables::{counts, versions};

// Appends a version behind those that a server holds. Where it holds 256, nothing changes and the answer is false.
// Kept: (d) whether it was stored is all that there is to tell; a step that this refuses names the cause itself.
pub fn append(
    counts: &mut [u32],
    keys: &mut [u32],
    values: &mut [u32],
    server: usize,
    key: Key,
    badge: u32,
    setpoint: u32,
) -> bool
    requires { Room counts.old keys.old values.old server }
    ensures { append_left result counts.new keys.new values.new
        ≡ appended counts.old keys.old values.old server key badge setpoint }
{
    let held = counts::count_at(counts, counts::HELD + server);
    if versions::PLACES <= held as usize {
        return false;
    }
    versions::put_version(keys, values, server, held as usize, key, badge, setpoint);
    counts::put_count(counts, counts::HELD + server, held + 1);
    true
}

// The first of a server's n first versions that bears a key, and n where none does.
pub fn find(keys: &[u32], server: usize, n: usize, key: Key) -> usize
    requires { (server < 16) × (server_places * server + n ≤ length keys.now) }
    ensures { result ≡ first_bearing keys.now server key n }
{
    ranges::first_equal(keys, versions::first_place(server), n, key.word())
}
