// The greatest tag that qualifies: a walk up the log, over the table of holders.
#![tactic(auto)]

ghost use Rattle.std.specs.Prelude.{◌≡◌, ℕ, ◌*◌, ◌≤◌, ◌<◌, length, true};
ghost use Rattle.keys.specs.Masks.{has_server};
ghost use Rattle.tables.specs.Rows.{HasRow};
ghost use Rattle.tables.specs.Layout.{entry_width, entry_key, entry_mask};
ghost use Rattle.rules.specs.Choice.{chosen_tag};
ghost use Rattle.rules.specs.Reply.{received_in};
ghost use Rattle.holder_slots.specs.Holders.{Marked};
ghost use Rattle.holders.specs.Looked.{holders_of};
ghost use Rattle.qualifying_tag.specs.Walk.{lacking_after};

use holder_slots::SLOTS;
use holders::Receipts;
use tables::log;

// What a walk up the log goes by: the table of holders, marked for the wanted servers, of which there are no others.
#[derive(Clone, Copy)]
struct Walk<'a> {
    receipts: Receipts<'a>,
    holders: &'a [u16],
    log: &'a [u32],
    wanted: u32,
    ghost marked: { Marked receipts.keys.now wanted (received_in receipts.clients.now receipts.client) holders.now },
    ghost few: { (i : ℕ) → has_server wanted i ≡ true → i < receipts.servers },
}

impl<'a> Walk<'a> {
    // The holders of the key of the entry at a tag.
    fn holding(&self, tag: usize) -> u32
        requires { HasRow entry_width self.now.log.now tag }
        ensures { let r = self.now.receipts in
            result ≡ holders_of self.now.holders.now r.keys.now (received_in r.clients.now r.client) r.servers (entry_key self.now.log.now tag) }
    {
        self.receipts
            .holders_of(self.holders, log::entry_key(self.log, tag))
    }

    // Of the wanted servers, those that lack their key at a tag, from those at the tag before it: one that the entry wrote has the entry's
    // key there, and lacks it unless it holds it; any other lacks its key as before.
    fn lacking_at(&self, tag: usize, lacking: u32) -> u32
        requires { HasRow entry_width self.now.log.now tag }
        ensures { let r = self.now.receipts in
            result ≡ lacking_after lacking self.now.wanted (entry_mask self.now.log.now tag)
            (holders_of self.now.holders.now r.keys.now (received_in r.clients.now r.client) r.servers (entry_key self.now.log.now tag)) }
    {
        let touched = self.wanted & log::entry_mask(self.log, tag);
        keys::without(lacking | touched, touched & self.holding(tag))
    }

    // The walk keeps which servers lack their key, and the last tag at which none did. At the first tag every server has the first entry's
    // key, whatever its mask.
    fn greatest(&self, entries: usize) -> usize
        requires { (0 < entries) × (entry_width * entries ≤ length self.now.log.now) }
        ensures { let r = self.now.receipts in
            result ≡ chosen_tag r.keys.now self.now.log.now self.now.wanted (received_in r.clients.now r.client) r.servers entries }
    {
        let mut lacking = keys::without(self.wanted, self.holding(0));
        let mut chosen = 0;
        for tag in 1..entries {
            lacking = self.lacking_at(tag, lacking);
            if lacking == 0 {
                chosen = tag;
            }
        }
        chosen
    }
}

// The greatest tag that qualifies, of the servers of a mask that has no others: the versions received are gone over once, and then the log.
pub fn greatest_tag(receipts: &Receipts, log: &[u32], wanted: u32, entries: usize) -> usize
    requires few { (i : ℕ) → has_server wanted i ≡ true → i < receipts.now.servers }
    requires entries_nonzero { (0 < entries) × (entry_width * entries ≤ length log.now) }
    ensures { let r = receipts.now in
        result ≡ chosen_tag r.keys.now log.now wanted (received_in r.clients.now r.client) r.servers entries }
{
    let mut holders = [0; SLOTS];
    receipts.mark_servers(&mut holders, wanted);
    let walk = Walk {
        receipts: *receipts,
        holders: &holders,
        log,
        wanted,
    };
    walk.greatest(entries)
}
