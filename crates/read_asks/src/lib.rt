// What a READ asks first, by its method, on tables known to be sound.
#![tactic(auto)]

ghost use Rattle.std.specs.Prelude.{◌≡◌, List, ℕ};
ghost use Rattle.tables.specs.Tables.{tables_of};
ghost use Rattle.tables.specs.Layout.{count_at, method_field};
ghost use Rattle.rules.specs.Begin.{asking, asking_by};
ghost use Rattle.read_asks.specs.Ready.{AskReady};

use keys::Key;
use rules::states;
use tables::{counts, links};

// What a READ asks, by the method: B asks the coordinator, C all masked servers and the coordinator together.
pub fn ask(counts: &[u32], clients: &mut [u32], links: &mut [u32], client: usize, mask: u32)
    requires { AskReady counts.now clients.old links.old client }
    ensures { (keys values log writes reads : List ℕ) →
        asking clients.new links.new
        ≡ asking_by (count_at counts.now method_field) client mask
        (tables_of counts.now clients.old links.old keys values log writes reads) }
{
    let place = counts::count_at(counts, counts::READS);
    if counts::count_at(counts, counts::METHOD) == 2 {
        sending::start_client(clients, client, states::ASKING_KEYS, mask, place);
    } else {
        let servers = counts::count_at(counts, counts::SERVERS);
        sending::start_client(clients, client, states::ASKING_ALL, mask, place);
        sending::send_asks(links, client, mask, servers as usize);
    }
    sending::send(links, client, links::COORDINATOR, Key::OPENING, 0);
}
