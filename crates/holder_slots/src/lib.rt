// The slots of the table of holders, which has for each key the servers that it was received from: which keys have a slot, and the versions
// of one server marked in theirs.
#![tactic(auto)]

ghost use Rattle.std.specs.Prelude.{◌≡◌, ◌+◌, ◌*◌, ◌≤◌, ◌<◌, length};
ghost use Rattle.tables.specs.Layout.{server_places};
ghost use Rattle.holder_slots.specs.Holders.{slots, tabled, slot_of, marked, mark_versions};

use tables::versions;

// The table of holders has for each key of a client below 16, so for every key of sound tables, the mask of the servers that hold it.
pub const SLOTS: usize = 4096;

// Whether a word is a key that has a slot.
pub fn is_tabled(word: u32) -> bool
    ensures { result ≡ tabled word }
{
    word < 65536 && word % 256 < 16
}

pub fn slot_of(word: u32) -> usize
    ensures { result ≡ slot_of word }
{
    (word / 256 * 16 + word % 256) as usize
}

// The servers of a mask go into the slot of a word, if it has one.
#[tactic(auto, unfolding(crate::specs::Holders::marked))]
fn mark(holders: &mut [u16], mask: u16, word: u32)
    requires { slots ≤ length holders.old }
    ensures { holders.new ≡ marked mask word holders.old }
{
    if is_tabled(word) {
        let slot = slot_of(word);
        holders[slot] |= mask;
    }
}

// The keys of a server's first versions are marked as held by it.
pub fn mark_versions(holders: &mut [u16], keys: &[u32], server: usize, received: usize)
    requires slots_in_bounds { slots ≤ length holders.old }
    requires server_bound { (server < 16) × (server_places * server + received ≤ length keys.now) }
    ensures { holders.new ≡ mark_versions keys.now server received holders.old }
{
    let mask = keys::one_server(server) as u16;
    for place in 0..received {
        mark(holders, mask, versions::key_word(keys, server, place));
    }
}
