// What is decided of version records, on plain values, for the functions over a slice of structs.
#![tactic(auto)]

ghost use Rattle.std.specs.Prelude.{◌≡◌, Ok};
ghost use Rattle.causes.specs.Numbers.{fault_of};
ghost use Rattle.version_records.specs.Table.{readable, append_number, bears, found_at};
ghost use Rattle.version_records.specs.Reading.{reading_by};

use causes::Refusal;
use keys::Key;
use tables::versions::PLACES;
use version_records::{Reading, Version};

// How many of the held versions can be read: the lent table may be shorter than the number beside it says.
#[tactic(auto, unfolding(version_records::specs::Table::lesser))]
pub fn readable_of(held: usize, places: usize) -> usize
    ensures { result ≡ readable held places }
{
    held.min(places.min(PLACES))
}

// Whether a version may be appended. Refused by 2 or 8: by 2 where the table is too short for a server, then by 8 where no place is left.
#[tactic(auto, unfolding(version_records::specs::Table::append_number))]
pub fn may_append(held: usize, places: usize) -> Result<(), Refusal>
    ensures { fault_of result ≡ append_number held places }
{
    if places < PLACES {
        Err(Refusal::NotSound)
    } else if held < PLACES {
        Ok(())
    } else {
        Err(Refusal::Unanswerable)
    }
}

// Whether a version bears a key.
pub fn bears_key(version: Version, key: Key) -> bool
    ensures { result ≡ bears version key }
{
    let own = version.key;
    own.same(key)
}

// What is read of a version that bears the key.
pub fn reading_found(version: Version) -> Reading
    ensures { reading_by (Ok result) ≡ found_at version }
{
    Reading {
        badge: version.badge,
        setpoint: version.setpoint,
    }
}
