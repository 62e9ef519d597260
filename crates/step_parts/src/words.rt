// A word of each masked server: kept in a client's row, from a field on, and shown from there.
ghost use Rattle.std.specs.Prelude.{◌≡◌, cond, ◌+◌, ◌≤◌, ◌<◌, length, get_or};
ghost use Rattle.keys.specs.Masks.{has_server};
ghost use Rattle.tables.specs.Rows.{HasRow};
ghost use Rattle.tables.specs.Layout.{client_width, client_word, put_client_word};
ghost use Rattle.ranges.specs.Laid.{laid};
ghost use Rattle.rules.specs.Words.{kept_words, shown_words};

use tables::clients;

// The mask that has every server, and the coordinator.
pub const EVERY: u32 = 4294967295;

// A word goes to a place of a client's row, if the mask has the server.
fn keep_word(clients: &mut [u32], client: usize, field: usize, mask: u32, server: usize, word: u32)
    requires has_row { HasRow client_width clients.old client }
    requires field_lt_client_width { (field < client_width) × (server < 32) }
    ensures { clients.new
        ≡ cond (has_server mask server) (put_client_word clients.old client field word) clients.old }
{
    if keys::has_server(mask, server) {
        clients::put_client_word(clients, client, field, word);
    }
}

// The client's row gets the words of the masked servers, from a field on. What it has for the other servers stays.
pub fn keep_words(
    clients: &mut [u32],
    client: usize,
    field: usize,
    mask: u32,
    servers: usize,
    words: &[u32],
)
    requires has_row { HasRow client_width clients.old client }
    requires servers_bound { (field + servers ≤ client_width) × (servers ≤ 32) }
    requires servers_in_bounds { servers ≤ length words.now }
    ensures { clients.new
        ≡ kept_words field (has_server mask) (λ i. get_or words.now i 0) client servers clients.old }
{
    for server in 0..servers {
        keep_word(clients, client, field + server, mask, server, words[server]);
    }
}

// A masked server's word, and 0 for another.
fn masked_word(mask: u32, server: usize, word: u32) -> u32
    requires { server < 32 }
    ensures { result ≡ cond (has_server mask server) word 0 }
{
    if keys::has_server(mask, server) {
        word
    } else {
        0
    }
}

// The 16 words of a client's row from a field on.
fn copy_words(clients: &[u32], client: usize, field: usize, words: &mut [u32; 16])
    requires has_row { HasRow client_width clients.now client }
    requires field_bound { (field + 16 ≤ client_width) × (length words.old ≡ 16) }
    ensures { words.new ≡ laid (λ i. client_word clients.now client (field + i)) 16 words.old }
{
    // Kept: (d) word by word: `copy_from_slice` would reckon here with the row's layout, which `tables::clients` alone knows.
    for server in 0..16 {
        words[server] = clients::client_word(clients, client, field + server);
    }
}

// A row of 16 gets what an answer shows: the words of the masked servers that the client's row has, from a field on, and 0 for the others.
// The words are copied to the stack first, and none is branched on: so the compiler moves and masks four at a time, which it does not where
// what is stored could be what is read next. The row is lent: one that is returned is built from 16 numbers, and copied.
pub fn show_words(clients: &[u32], client: usize, field: usize, mask: u32, row: &mut [u32; 16])
    requires has_row { HasRow client_width clients.now client }
    requires field_bound { (field + 16 ≤ client_width) × (length row.old ≡ 16) }
    ensures { row.new ≡ shown_words field clients.now client mask }
{
    let mut words = [0u32; 16];
    copy_words(clients, client, field, &mut words);
    for server in 0..16 {
        row[server] = masked_word(mask, server, words[server]);
    }
}
