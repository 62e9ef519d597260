// The coordinator's log: (key, mask) at each tag.
ghost use Rattle.std.specs.Prelude.{◌≡◌};
ghost use Rattle.tables.specs.Rows.{HasRow};
ghost use Rattle.tables.specs.Layout.{entry_width, entry_word, entry_key, entry_mask, put_entry};

use keys::Key;

pub const PLACES: usize = 256;

pub const WIDTH: usize = 2;

const KEY: usize = 0;

const MASK: usize = 1;

pub fn entry_key(log: &[u32], tag: usize) -> Key
    requires { HasRow entry_width log.now tag }
    ensures { result ≡ entry_key log.now tag }
{
    Key::at_word(log[WIDTH * tag + KEY])
}

// The word of an entry's key as it stands, for those who ask whether it is in its range.
pub fn key_word(log: &[u32], tag: usize) -> u32
    requires { HasRow entry_width log.now tag }
    ensures { result ≡ entry_word log.now tag }
{
    log[WIDTH * tag + KEY]
}

pub fn entry_mask(log: &[u32], tag: usize) -> u32
    requires { HasRow entry_width log.now tag }
    ensures { result ≡ entry_mask log.now tag }
{
    log[WIDTH * tag + MASK]
}

pub fn put_entry(log: &mut [u32], tag: usize, key: Key, mask: u32)
    requires { HasRow entry_width log.old tag }
    ensures { log.new ≡ put_entry log.old tag key mask }
{
    let at = WIDTH * tag;
    log[at + KEY] = key.word();
    log[at + MASK] = mask;
}
