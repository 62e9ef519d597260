// The register's records of WRITEs and of READs: client, number (a WRITE's count, a READ's mask), tag, begin and end step,
// and a WRITE's badge.
ghost use Rattle.std.specs.Prelude.{◌≡◌, ◌<◌};
ghost use Rattle.tables.specs.Rows.{HasRow};
ghost use Rattle.tables.specs.Layout.{record_width, record_word, put_record_word, put_begun};

pub const PLACES: usize = 255;

pub const WIDTH: usize = 6;

pub const CLIENT: usize = 0;

pub const NUMBER: usize = 1;

pub const TAG: usize = 2;

pub const BEGIN: usize = 3;

pub const END: usize = 4;

pub const BADGE: usize = 5;

pub fn record_word(records: &[u32], place: usize, field: usize) -> u32
    requires has_row { HasRow record_width records.now place }
    requires field_lt_record_width { field < record_width }
    ensures { result ≡ record_word records.now place field }
{
    records[WIDTH * place + field]
}

pub fn put_record_word(records: &mut [u32], place: usize, field: usize, value: u32)
    requires has_row { HasRow record_width records.old place }
    requires field_lt_record_width { field < record_width }
    ensures { records.new ≡ put_record_word records.old place field value }
{
    records[WIDTH * place + field] = value;
}

// A record begun at a step, with no tag and no end yet.
pub fn put_begun(
    records: &mut [u32],
    place: usize,
    client: u32,
    number: u32,
    begin: u32,
    badge: u32,
)
    requires { HasRow record_width records.old place }
    ensures { records.new ≡ put_begun records.old place client number begin badge }
{
    let at = WIDTH * place;
    records[at + CLIENT] = client;
    records[at + NUMBER] = number;
    records[at + TAG] = 0;
    records[at + BEGIN] = begin;
    records[at + END] = 0;
    records[at + BADGE] = badge;
}
