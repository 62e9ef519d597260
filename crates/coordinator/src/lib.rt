// The head's part: the log, and the key of a station at a tag. The head is the coordinator here, a station a server.
#![tactic(auto)]

ghost use Rattle.std.specs.Prelude.{◌≡◌, ◌≤◌, ◌<◌, length};
ghost use Rattle.ranges.specs.Laid.{laid};
ghost use Rattle.coordinator.specs.Log.{LogRoom, HasEntry, enter_left, entered};
ghost use Rattle.coordinator.specs.Latest.{entry_at, latest_of, latest_word, latest_tag_at};

use keys::Key;
use tables::{counts, log};

// Appends (key, mask) to the log; the new place is the tag. Where it has 256 entries, nothing changes and the answer is false.
// Kept: (d) whether it was entered is all that there is to tell; a step that this refuses names the cause itself.
pub fn enter(counts: &mut [u32], log: &mut [u32], key: Key, mask: u32) -> bool
    requires { LogRoom counts.old log.old }
    ensures { enter_left result counts.new log.new ≡ entered counts.old log.old key mask }
{
    let entries = counts::count_at(counts, counts::ENTRIES);
    if log::PLACES <= entries as usize {
        return false;
    }
    log::put_entry(log, entries as usize, key, mask);
    counts::put_count(counts, counts::ENTRIES, entries + 1);
    true
}

// What the search back finds for a server: the key of the latest entry that wrote it, and the tag of that entry.
#[derive(Clone, Copy)]
pub struct Latest {
    pub key: Key,
    pub tag: u32,
}

// The latest entry, at the tag or before it, whose mask has the server: its tag, at which the log has its key. The search back calls itself with a
// tag one smaller. It hands on the reference to the log that it was lent, and answers a number: so the compiler makes the calls a loop.
// Kept: (a) the language form of docs/SPECIFICATION.md: the search back is recursive.
pub fn search_back(log: &&[u32], server: usize, tag: usize) -> usize
    requires { (server < 16) × HasEntry log.now.now tag }
    ensures { entry_at log.now.now result ≡ latest_of log.now.now server tag }
{
    let entries = *log;
    if tag == 0 {
        return 0;
    }
    if keys::has_server(log::entry_mask(entries, tag), server) {
        return tag;
    }
    search_back(log, server, tag - 1)
}

// The key and the tag of the latest entry, at the tag or before it, whose mask has the server.
pub fn latest_entry(log: &[u32], server: usize, tag: usize) -> Latest
    requires { (server < 16) × HasEntry log.now tag }
    ensures { result ≡ latest_of log.now server tag }
{
    let found = search_back(&log, server, tag);
    Latest {
        key: log::entry_key(log, found),
        tag: found as u32,
    }
}

// The keys of the first servers at a tag, as words, and the tags that they come from, into the fronts of lent spaces.
pub fn latest_entries(log: &[u32], servers: usize, tag: usize, keys: &mut [u32], tags: &mut [u32])
    requires servers_bound { (servers ≤ 16) × ((servers ≤ length keys.old) × (servers ≤ length tags.old)) }
    requires has_entry { HasEntry log.now tag }
    ensures keys { keys.new ≡ laid (latest_word log.now tag) servers keys.old }
    ensures tags { tags.new ≡ laid (latest_tag_at log.now tag) servers tags.old }
{
    for server in 0..servers {
        let latest = latest_entry(log, server, tag);
        keys[server] = latest.key.word();
        tags[server] = latest.tag;
    }
}
