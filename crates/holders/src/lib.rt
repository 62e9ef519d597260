// The table of holders: the versions received from all servers are gone over once, and then each key of the log is looked up in its slot.
#![tactic(auto)]

ghost use Rattle.std.specs.Prelude.{◌≡◌, ℕ, ◌≤◌, ◌<◌, length, cond, Some, None};
ghost use Rattle.keys.specs.Bits.{gathered};
ghost use Rattle.server.specs.Held.{first_bearing};
ghost use Rattle.rules.specs.Choice.{holds_key};
ghost use Rattle.rules.specs.Reply.{received_in};
ghost use Rattle.holder_slots.specs.Holders.{slots, mark_servers};
ghost use Rattle.holders.specs.Ready.{Received};
ghost use Rattle.holders.specs.Looked.{holders_of};

use keys::Key;
use tables::clients;

// What a client received under C: the first versions of each server, as many as the client's row says.
#[derive(Clone, Copy)]
pub struct Receipts<'a> {
    pub clients: &'a [u32],
    pub keys: &'a [u32],
    pub client: usize,
    pub servers: usize,
    pub ghost received: { (i : ℕ) → i < servers → Received clients.now keys.now client i },
}

impl<'a> Receipts<'a> {
    // How many versions came from a server.
    pub fn number_from(&self, server: usize) -> usize
        requires { server < self.now.servers }
        ensures { result ≡ received_in self.now.clients.now self.now.client server }
    {
        clients::client_word(self.clients, self.client, clients::RECEIVED + server) as usize
    }

    // The place of a key among the versions that came from a server.
    pub fn place_of(&self, server: usize, key: Key) -> Option<usize>
        requires { server < self.now.servers }
        ensures { let received = received_in self.now.clients.now self.now.client in
            result ≡ cond (holds_key self.now.keys.now received key server)
            (Some (first_bearing self.now.keys.now server key (received server))) None }
    {
        let received = self.number_from(server);
        let place = server::find(self.keys, server, received, key);
        if place < received { Some(place) } else { None }
    }

    // The versions received from all servers of a mask are marked as held by them.
    pub fn mark_servers(&self, holders: &mut [u16], mask: u32)
        requires { slots ≤ length holders.old }
        ensures { holders.new
            ≡ mark_servers self.now.keys.now mask (received_in self.now.clients.now self.now.client) self.now.servers holders.old }
    {
        for server in 0..self.servers {
            if keys::has_server(mask, server) {
                holder_slots::mark_versions(holders, self.keys, server, self.number_from(server));
            }
        }
    }

    // The holders of a key, each searched for.
    fn search_holders(&self, key: Key) -> u32
        ensures { result
            ≡ gathered (holds_key self.now.keys.now (received_in self.now.clients.now self.now.client) key) self.now.servers }
    {
        let mut found = 0;
        for server in 0..self.servers {
            if self.place_of(server, key).is_some() {
                found |= keys::one_server(server);
            }
        }
        found
    }

    // The holders of a key: its slot has them. A key that has no slot occurs in no sound tables.
    #[tactic(auto, unfolding(crate::specs::Looked::holders_of))]
    pub fn holders_of(&self, holders: &[u16], key: Key) -> u32
        requires { slots ≤ length holders.now }
        ensures { result
            ≡ holders_of holders.now self.now.keys.now (received_in self.now.clients.now self.now.client) self.now.servers key }
    {
        let word = key.word();
        if holder_slots::is_tabled(word) {
            holders[holder_slots::slot_of(word)] as u32
        } else {
            self.search_holders(key)
        }
    }
}
