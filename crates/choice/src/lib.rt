// Method C's last reply: the choice of the tag, and the setpoints and badges at it.
#![tactic(auto)]

ghost use Rattle.std.specs.Prelude.{◌≡◌, length, replicate, cond};
ghost use Rattle.ranges.specs.Picked.{laid_over};
ghost use Rattle.keys.specs.Masks.{has_server};
ghost use Rattle.tables.specs.Rows.{HasRow};
ghost use Rattle.tables.specs.Layout.{client_width};
ghost use Rattle.coordinator.specs.Log.{HasEntry};
ghost use Rattle.coordinator.specs.Latest.{latest_tag_at};
ghost use Rattle.rules.specs.Choice.{qualifies, chosen_tag, chosen_setpoint, chosen_badge};
ghost use Rattle.rules.specs.Reply.{received_in, forgotten, concluded_row};
ghost use Rattle.choice.specs.Values.{Taken};
ghost use Rattle.choice.specs.Ready.{ChoiceReady, Choosable};

use holders::Receipts;
use step_parts::words;
use tables::{clients, links, log, versions};

// What a choice goes by: what the client received, with the values of the versions, the log, and the mask of the servers asked for.
#[derive(Clone, Copy)]
struct Choice<'a> {
    receipts: Receipts<'a>,
    values: &'a [u32],
    log: &'a [u32],
    mask: u32,
    ghost ready: { ChoiceReady receipts.clients.now receipts.keys.now values.now receipts.client receipts.servers },
}

// A setpoint and a badge of each masked server; what stands for the others is free.
#[derive(Clone, Copy)]
struct Found {
    setpoints: [u32; 16],
    badges: [u32; 16],
    ghost long: { (length setpoints ≡ 16) × (length badges ≡ 16) },
}

impl<'a> Choice<'a> {
    // Found are the setpoints and the badges of the masked servers at a tag, and the tags that they come from, if all of them were received.
    // The answer is whether they were: the first server that lacks its key ends the search. The row of tags is lent with zeros.
    // Kept: (d) a bool beside the lent rows: of the second try the answer is known, so that an Option of them would only be unwrapped there.
    fn values_at(&self, tag: usize, found: &mut Found, tags: &mut [u32; 16]) -> bool
        requires there { HasEntry self.now.log.now tag }
        requires zeros { tags.old ≡ replicate 16 0 }
        ensures value { let r = self.now.receipts in
            result ≡ qualifies r.keys.now self.now.log.now self.now.mask (received_in r.clients.now r.client) r.servers tag }
        ensures tags { tags.new
            ≡ laid_over (has_server self.now.mask) (latest_tag_at self.now.log.now tag) self.now.receipts.servers tags.old }
        ensures rows { let r = self.now.receipts in
            Taken r.keys.now self.now.values.now self.now.log.now self.now.mask (received_in r.clients.now r.client)
            tag (cond result r.servers 0) found.new.setpoints found.new.badges }
    {
        log_search::latest_tags(self.log, self.receipts.servers, tag, self.mask, tags);
        for server in 0..self.receipts.servers {
            if keys::has_server(self.mask, server) {
                let key = log::entry_key(self.log, tags[server] as usize);
                let Some(place) = self.receipts.place_of(server, key) else {
                    return false;
                };
                found.setpoints[server] = versions::version_setpoint(self.values, server, place);
                found.badges[server] = versions::version_badge(self.values, server, place);
            }
        }
        true
    }

    // The greatest tag among the first entries of the log that qualifies, with the values at it. It does not stop at the first tag whose key
    // is missing. The newest is tried first: it qualifies unless a WRITE came between the replies, and then log and versions are searched
    // once. Where it does not, the greatest that does is found, and its values are taken.
    fn choose(&self, entries: usize, found: &mut Found, tags: &mut [u32; 16]) -> usize
        requires choosable { let r = self.now.receipts in
            Choosable r.clients.now r.keys.now self.now.log.now r.client self.now.mask r.servers entries }
        requires zeros { tags.old ≡ replicate 16 0 }
        ensures value { let r = self.now.receipts in
            result ≡ chosen_tag r.keys.now self.now.log.now self.now.mask (received_in r.clients.now r.client) r.servers entries }
        ensures tags { tags.new
            ≡ laid_over (has_server self.now.mask) (latest_tag_at self.now.log.now result) self.now.receipts.servers tags.old }
        ensures rows { let r = self.now.receipts in
            Taken r.keys.now self.now.values.now self.now.log.now self.now.mask (received_in r.clients.now r.client)
            result r.servers found.new.setpoints found.new.badges }
    {
        let newest = entries - 1;
        if self.values_at(newest, found, tags) {
            return newest;
        }
        tags.fill(0);
        let wanted = keys::first_servers(self.mask, self.receipts.servers);
        let tag = qualifying_tag::greatest_tag(&self.receipts, self.log, wanted, entries);
        self.values_at(tag, found, tags);
        tag
    }
}

// The n received are forgotten.
fn forget_received(clients: &mut [u32], client: usize)
    requires { HasRow client_width clients.old client }
    ensures { clients.new ≡ forgotten client clients.old }
{
    let none = [0u32; links::TARGETS];
    words::keep_words(
        clients,
        client,
        clients::RECEIVED,
        words::EVERY,
        links::TARGETS,
        &none,
    );
}

// The client's row at the end of a READ under C: setpoints and badges at the tag that is chosen among the first entries of the log, the n
// forgotten, the tag. A row of 16 gets the tags that they come from. The answer is the tag.
pub fn conclude<'x>(
    clients: &mut [u32],
    keys: &'x [u32],
    values: &'x [u32],
    log: &'x [u32],
    client: usize,
    mask: u32,
    servers: usize,
    entries: usize,
    tags: &mut [u32; 16],
) -> u32
    requires choice_ready { ChoiceReady clients.old keys.now values.now client servers }
    requires has_row { (HasRow client_width clients.old client) × (tags.old ≡ replicate 16 0) }
    requires choosable { Choosable clients.old keys.now log.now client mask servers entries }
    ensures value { result
        ≡ chosen_tag keys.now log.now mask (received_in clients.old client) servers entries }
    ensures clients { clients.new
        ≡ concluded_row
        (chosen_setpoint keys.now values.now log.now (received_in clients.old client) result)
        (chosen_badge keys.now values.now log.now (received_in clients.old client) result)
        result client mask servers clients.old }
    ensures tags { tags.new
        ≡ laid_over (has_server mask) (latest_tag_at log.now result) servers tags.old }
{
    // Kept: (a) the tables for themselves: the clients are changed, and a Receipts would hold them lent to be read.
    let choice = Choice {
        receipts: Receipts {
            clients: &*clients,
            keys,
            client,
            servers,
        },
        values,
        log,
        mask,
    };
    let mut found = Found {
        setpoints: [0; 16],
        badges: [0; 16],
    };
    let tag = choice.choose(entries, &mut found, tags) as u32;
    words::keep_words(
        clients,
        client,
        clients::SETPOINTS,
        mask,
        servers,
        &found.setpoints,
    );
    words::keep_words(
        clients,
        client,
        clients::BADGES,
        mask,
        servers,
        &found.badges,
    );
    forget_received(clients, client);
    clients::put_client_word(clients, client, clients::TAG, tag);
    tag
}
