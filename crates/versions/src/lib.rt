// A station's versions, lent as a table of records in order of arrival. A station is a server here.
// How many are held is a number beside the table, as in the store's counts: the table alone does not say where the held places end.
// The functions over that slice are thin; they leave what is decided to functions on plain values.
#![tactic(auto)]

ghost use Rattle.std.specs.Prelude.{◌≡◌, length};
ghost use Rattle.causes.specs.Numbers.{fault_of};
ghost use Rattle.version_records.specs.Table.{readable, append_number, append_table, first_bearing, reading_of, held_after_lem, trial_of};
ghost use Rattle.version_records.specs.Reading.{reading_by, trial_by};

use causes::Refusal;
use keys::Key;
use tables::versions::PLACES;
use version_records::{Reading, Trial, Version};

// Appends a version behind those held. Refused by 2 or 8: by 2 where the lent table has fewer than 256 places, then by 8 where 256 are held, and
// nothing changes. Where a version held bears the key already, as when a request was sent again, none is appended: `find` tells that first.
pub fn append(versions: &mut [Version], held: usize, version: Version) -> Result<(), Refusal>
    ensures { (fault_of result ≡ append_number held (length versions.old)) × (versions.new ≡ append_table versions.old held version) }
{
    version_decisions::may_append(held, versions.len())?;
    versions[held] = version;
    Ok(())
}

// The number that an append answered: 0 where it is done.
fn append_number(appended: Result<(), Refusal>) -> u8
    ensures { result ≡ fault_of appended }
{
    match appended {
        Ok(()) => 0,
        Err(refusal) => refusal.number(),
    }
}

// How many are held after an append that answered a number.
#[tactic(auto, unfolding(version_records::specs::Table::held_after_lem))]
pub fn held_after(held: usize, number: u8) -> usize
    ensures { result ≡ held_after_lem held number }
{
    // Kept: (a) it is asked of any number, so that a Result for it would ask more.
    if number == 0 && held < PLACES {
        held + 1
    } else {
        held
    }
}

// How many are held at this moment and can be read.
pub fn held_now(versions: &[Version], held: usize) -> usize
    ensures { result ≡ readable held (length versions.now) }
{
    version_decisions::readable_of(held, versions.len())
}

// The first version held that bears a key, and the number that can be read where none does.
// Kept: `first_bearing` is that number, which versions_check prints; an Option would be made one again by each caller.
pub fn find(versions: &[Version], held: usize, key: Key) -> usize
    ensures { result ≡ first_bearing versions.now held key }
{
    let readable = held_now(versions, held);
    for place in 0..readable {
        if version_decisions::bears_key(versions[place], key) {
            return place;
        }
    }
    readable
}

// The setpoint of a key, with its badge: those of the first version held that bears it. Refused by 8 where none does.
pub fn setpoint_of(versions: &[Version], held: usize, key: Key) -> Result<Reading, Refusal>
    ensures { reading_by result ≡ reading_of versions.now held key }
{
    let place = find(versions, held, key);
    if place < held_now(versions, held) {
        Ok(version_decisions::reading_found(versions[place]))
    } else {
        Err(Refusal::Unanswerable)
    }
}

// A table of one's own, filled with a version, takes another behind those held; then a key is looked up in it.
// The parameters are plain values, so that a caller lends no table.
pub fn append_and_read(blank: Version, held: usize, version: Version, key: Key) -> Trial
    ensures { trial_by result ≡ trial_of blank held version key }
{
    let mut table = [blank; 4096];
    let appended = append(&mut table, held, version);
    let after = held_after(held, append_number(appended));
    let lent: &[Version] = &table;
    Trial {
        appended,
        readable: held_now(lent, after),
        place: find(lent, after, key),
        reading: setpoint_of(lent, after, key),
    }
}
