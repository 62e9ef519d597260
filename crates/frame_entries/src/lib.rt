// The entries beside a message: whether there are places for them, and from a frame's bytes to these.
#![tactic(auto)]

ghost use Rattle.std.specs.Prelude.{◌≡◌, cond, length};
ghost use Rattle.frame_table.specs.Table.{has_badges};
ghost use Rattle.frame_table.specs.Entry.{behind_of};
ghost use Rattle.formats.specs.Found.{entries_bit, key_at, badge_at, number_at};
ghost use Rattle.ranges.specs.Laid.{laid};
ghost use Rattle.formats.specs.Entries.{enough};
ghost use Rattle.frame_entries.specs.Storable.{Storable};

use frame_table::{ENTRY_BADGE, NUMBER};

// Whether slices have places for the entries of a kind; badges need places only where the kind's entries have them.
pub fn enough_places(kind: u32, entries: usize, keys: usize, badges: usize, numbers: usize) -> bool
    ensures { result ≡ enough kind entries keys badges numbers }
{
    if keys < entries {
        return false;
    }
    if numbers < entries {
        return false;
    }
    if !frame_table::has_badges(kind) {
        return true;
    }
    entries <= badges
}

// The entries of a frame that was found good, from its bytes.
pub fn store(
    kind: u32,
    bytes: &[u8],
    keys: &mut [u32],
    badges: &mut [u32],
    numbers: &mut [u32],
    entries: usize,
)
    requires { Storable kind bytes.now entries (length keys.old) (length badges.old) (length numbers.old) }
    ensures { (keys.new ≡ laid (key_at bytes.now (entries_bit kind) (behind_of kind)) entries keys.old)
        × (badges.new ≡ cond (has_badges kind)
        (laid (badge_at bytes.now (entries_bit kind) (behind_of kind)) entries badges.old)
        badges.old)
        × (numbers.new
        ≡ laid (number_at bytes.now (entries_bit kind) (behind_of kind)) entries numbers.old) }
{
    let shape = frame_table::shape_of(kind);
    let row = frame_table::row_of(kind, shape.target);
    let behind = frame_table::behind_key(row[ENTRY_BADGE], row[NUMBER]);
    let first = frame_table::entries_at(shape);
    formats::entries::store_entries(bytes, first, behind, keys, numbers, entries);
    if behind.badge == 0 {
        return;
    }
    formats::entries::store_badges(bytes, first, behind, badges, entries);
}
