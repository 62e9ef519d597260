// Keys and masks by value.
#![tactic(auto)]

ghost use Rattle.std.specs.Prelude.{◌≡◌, ◌-◌, ◌%◌, ◌^◌, ◌≤◌, ◌<◌};
ghost use Rattle.keys.specs.Keys.{key_of, opening, same_key, key_word, key_at_word};
ghost use Rattle.keys.specs.Masks.{has_server, mask_within};
ghost use Rattle.keys.specs.Bits.{without};

// A key names a WRITE: the count of the client's WRITEs so far, this one included, and the client.
#[derive(Clone, Copy, PartialEq, Eq)]
pub struct Key {
    pub count: u8,
    pub client: u8,
}

impl Key {
    // The opening's own key, the only one of count 0.
    pub const OPENING: Key = Key {
        count: 0,
        client: 0,
    };

    pub fn new(count: u8, client: u8) -> Key
        ensures { result ≡ key_of count client }
    {
        Key { count, client }
    }

    // The constant as a value, and its promise: a constant has none of its own.
    pub fn opening() -> Key
        ensures { result ≡ opening }
    {
        Key::OPENING
    }

    pub fn same(self, other: Key) -> bool
        ensures { result ≡ same_key self other }
    {
        self == other
    }

    // A key as one number, and back.
    // Kept: (d) `key.word()` and `Key::at_word(word)` say which number it is, where `u32::from(key)` and `word.into()` do not.
    pub fn word(self) -> u32
        ensures { result ≡ key_word self }
    {
        self.count as u32 * 256 + self.client as u32
    }

    pub fn at_word(word: u32) -> Key
        ensures { result ≡ key_at_word word }
    {
        Key {
            count: (word / 256 % 256) as u8,
            client: (word % 256) as u8,
        }
    }
}

// Whether a mask has a server.
pub fn has_server(mask: u32, server: usize) -> bool
    requires { server < 32 }
    ensures { result ≡ has_server mask server }
{
    (mask >> server) % 2 == 1
}

// Whether a mask is not zero and within the first servers.
pub fn mask_within(mask: u32, servers: u32) -> bool
    requires { servers ≤ 16 }
    ensures { result ≡ mask_within mask servers }
{
    mask != 0 && mask >> servers == 0
}

// The mask of one server.
pub fn one_server(server: usize) -> u32
    requires { server ≤ 16 }
    ensures { result ≡ 2 ^ server }
{
    1 << server
}

// The mask of the first servers: each bit below their number.
pub fn all_servers(servers: u32) -> u32
    requires { servers ≤ 16 }
    ensures { result ≡ 2 ^ servers - 1 }
{
    one_server(servers as usize) - 1
}

// The first servers of a mask.
pub fn first_servers(mask: u32, servers: usize) -> u32
    requires { servers ≤ 16 }
    ensures { result ≡ mask % 2 ^ servers }
{
    mask % one_server(servers)
}

// The servers of a mask that another does not have.
pub fn without(mask: u32, other: u32) -> u32
    ensures { result ≡ without mask other }
{
    mask - (mask & other)
}
