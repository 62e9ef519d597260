// The entries of a frame that was found good, from its bytes to the lent slices: keys, as numbers, badges, and tags, setpoints or masks.
ghost use Rattle.std.specs.Prelude.{◌≡◌, ◌≤◌, length};
ghost use Rattle.ranges.specs.Laid.{laid};
ghost use Rattle.frame_table.specs.Entry.{badge_width};
ghost use Rattle.formats.specs.Found.{key_at, badge_at, number_at, Unpackable};

use frame_table::{BADGE_BITS, Behind, KEY_BITS};

// The keys and the numbers of so many entries from a bit on.
pub fn store_entries(
    bytes: &[u8],
    first: usize,
    behind: Behind,
    keys: &mut [u32],
    numbers: &mut [u32],
    entries: usize,
)
    requires { Unpackable bytes.now first behind entries × (entries ≤ length keys.old) × (entries ≤ length numbers.old) }
    ensures { (keys.new ≡ laid (key_at bytes.now first behind) entries keys.old)
        × (numbers.new ≡ laid (number_at bytes.now first behind) entries numbers.old) }
{
    let mut at = first;
    for i in 0..entries {
        let key = fields::read_field(bytes, at, KEY_BITS);
        keys[i] = key / 16 * 256 + key % 16;
        numbers[i] = fields::read_field(bytes, at + KEY_BITS + behind.badge, behind.width);
        at += KEY_BITS + behind.badge + behind.width;
    }
}

// Their badges, where these have bits.
pub fn store_badges(bytes: &[u8], first: usize, behind: Behind, badges: &mut [u32], entries: usize)
    requires { Unpackable bytes.now first behind entries × (behind.badge ≡ badge_width) × (entries ≤ length badges.old) }
    ensures { badges.new ≡ laid (badge_at bytes.now first behind) entries badges.old }
{
    let mut at = first;
    for i in 0..entries {
        badges[i] = fields::read_field(bytes, at + KEY_BITS, BADGE_BITS);
        at += KEY_BITS + BADGE_BITS + behind.width;
    }
}
