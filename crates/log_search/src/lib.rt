// The searches of the log that steps make: for a key, by blocks of entries, and for the latest entries of several servers, by one walk. Both
// are here for speed: the search for one server as document 01 has it is the coordinator's, and laws tie the walk to it.
#![tactic(auto)]

ghost use Rattle.std.specs.Prelude.{◌≡◌, ◌*◌, ◌≤◌, length, replicate};
ghost use Rattle.ranges.specs.Picked.{laid_over};
ghost use Rattle.keys.specs.Masks.{has_server};
ghost use Rattle.tables.specs.Layout.{entry_width};
ghost use Rattle.coordinator.specs.Log.{HasEntry, first_entry};
ghost use Rattle.coordinator.specs.Latest.{latest_tag_at};
ghost use Rattle.log_search.specs.Tags.{latest_of_any};

use keys::Key;
use tables::log;

// The first of the log's n first entries that bears a key, and n where none does. Blocks of 16 entries without the key's word are passed over, then
// blocks of 4. Masks are looked at too, since words that stand side by side are compared four at once and every second one is not; where a
// mask is the word by chance, the entries from there on are searched more closely.
pub fn find(log: &[u32], n: usize, key: Key) -> usize
    requires { entry_width * n ≤ length log.now }
    ensures { result ≡ first_entry log.now key n }
{
    let word = key.word();
    let wide = ranges::passed(0, n, 16, |tag| {
        ranges::has_equal(log, log::WIDTH * tag, log::WIDTH * 16, word)
    });
    let narrow = ranges::passed(wide, n, 4, |tag| {
        ranges::has_equal(log, log::WIDTH * tag, log::WIDTH * 4, word)
    });
    (narrow..n)
        .find(|tag| log::key_word(log, *tag) == word)
        .unwrap_or(n)
}

// The latest entry, at the tag or before it, whose mask has one of the servers left; 0 where there is none.
fn latest_of_any(log: &[u32], tag: usize, left: u32) -> usize
    requires { HasEntry log.now tag }
    ensures { result ≡ latest_of_any log.now left tag }
{
    for at in (1..=tag).rev() {
        if log::entry_mask(log, at) & left != 0 {
            return at;
        }
    }
    0
}

// The servers of a mask, of the first so many, get a tag.
fn put_tag(tags: &mut [u32; 16], servers: usize, mask: u32, tag: u32)
    requires { servers ≤ 16 }
    ensures { tags.new ≡ laid_over (has_server mask) (λ i. tag) servers tags.old }
{
    for server in 0..servers {
        if keys::has_server(mask, server) {
            tags[server] = tag;
        }
    }
}

// For each wanted server, of the first so many, the tag of the latest entry, at a tag or before it, that has it, into a row of 16 zeros:
// what the search back finds for each, by one walk down the log, from one entry that has any of the servers left to the next. Those left
// at tag 0 have it already.
pub fn latest_tags(log: &[u32], servers: usize, tag: usize, wanted: u32, tags: &mut [u32; 16])
    requires { (servers ≤ 16) × (HasEntry log.now tag × (tags.old ≡ replicate 16 0)) }
    ensures { tags.new ≡ laid_over (has_server wanted) (latest_tag_at log.now tag) servers tags.old }
{
    let mut left = wanted;
    let mut at = tag;
    while left != 0 {
        at = latest_of_any(log, at, left);
        if at == 0 {
            return;
        }
        let found = log::entry_mask(log, at) & left;
        put_tag(tags, servers, found, at as u32);
        left = keys::without(left, found);
        at -= 1;
    }
}
