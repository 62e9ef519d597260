// A client's row: state, last count, mask, tag, the place of the record in progress, 16 setpoints, the n received from each of 17 targets, the
// tags and the badges that 16 servers' setpoints come from, the badge of its WRITE, and the keys that it asks 16 servers for.
ghost use Rattle.std.specs.Prelude.{◌≡◌, ◌<◌};
ghost use Rattle.tables.specs.Rows.{HasRow};
ghost use Rattle.tables.specs.Layout.{client_width, client_word, put_client_word};

pub const WIDTH: usize = 87;

pub const STATE: usize = 0;

pub const COUNT: usize = 1;

pub const MASK: usize = 2;

pub const TAG: usize = 3;
// The place of the record of the transaction in progress.
pub const RECORD: usize = 4;
// The setpoint of server i stands at SETPOINTS + i.
pub const SETPOINTS: usize = 5;
// The n received from target i stands at RECEIVED + i.
pub const RECEIVED: usize = 21;
// The tag of the WRITE that the setpoint of server i comes from stands at TAGS + i.
pub const TAGS: usize = 38;
// The badge of that WRITE stands at BADGES + i.
pub const BADGES: usize = 54;
// The badge of the client's own WRITE.
pub const WRITE_BADGE: usize = 70;
// The word of the key that server i is asked for stands at ASKED + i.
pub const ASKED: usize = 71;

pub fn client_word(clients: &[u32], client: usize, field: usize) -> u32
    requires has_row { HasRow client_width clients.now client }
    requires field_lt_client_width { field < client_width }
    ensures { result ≡ client_word clients.now client field }
{
    clients[WIDTH * client + field]
}

pub fn put_client_word(clients: &mut [u32], client: usize, field: usize, value: u32)
    requires has_row { HasRow client_width clients.old client }
    requires field_lt_client_width { field < client_width }
    ensures { clients.new ≡ put_client_word clients.old client field value }
{
    clients[WIDTH * client + field] = value;
}
