// The servers' versions: 256 places a server, the keys in one table, and in another badge and setpoint, a row of two words.
ghost use Rattle.std.specs.Prelude.{◌≡◌, ◌+◌, ◌*◌, ◌<◌, length};
ghost use Rattle.keys.specs.Keys.{key_word};
ghost use Rattle.tables.specs.Layout.{server_places, version_word, put_version_word};
ghost use Rattle.tables.specs.Layout.{value_width, value_row, version_badge, version_setpoint, put_value};
ghost use Rattle.tables.specs.Rows.{HasRow};

use keys::Key;

pub const PLACES: usize = 256;
// A version's row beside its key.
pub const WIDTH: usize = 2;

const BADGE: usize = 0;

const SETPOINT: usize = 1;

// Where the versions of a server begin.
pub fn first_place(server: usize) -> usize
    requires { server < 16 }
    ensures { result ≡ server_places * server }
{
    PLACES * server
}

// The word of a key as it stands, for those who ask whether it is in its range.
pub fn key_word(keys: &[u32], server: usize, place: usize) -> u32
    requires { server_places * server + place < length keys.now }
    ensures { result ≡ version_word keys.now server place }
{
    keys[PLACES * server + place]
}

pub fn version_badge(values: &[u32], server: usize, place: usize) -> u32
    requires { HasRow value_width values.now (value_row server place) }
    ensures { result ≡ version_badge values.now server place }
{
    values[WIDTH * (PLACES * server + place) + BADGE]
}

pub fn version_setpoint(values: &[u32], server: usize, place: usize) -> u32
    requires { HasRow value_width values.now (value_row server place) }
    ensures { result ≡ version_setpoint values.now server place }
{
    values[WIDTH * (PLACES * server + place) + SETPOINT]
}

pub fn put_version(
    keys: &mut [u32],
    values: &mut [u32],
    server: usize,
    place: usize,
    key: Key,
    badge: u32,
    setpoint: u32,
)
    requires place_in_bounds { server_places * server + place < length keys.old }
    requires has_row { HasRow value_width values.old (value_row server place) }
    ensures keys { keys.new ≡ put_version_word keys.old server place (key_word key) }
    ensures values { values.new ≡ put_value values.old server place badge setpoint }
{
    let at = PLACES * server + place;
    keys[at] = key.word();
    values[WIDTH * at + BADGE] = badge;
    values[WIDTH * at + SETPOINT] = setpoint;
}
