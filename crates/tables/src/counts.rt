// The counts: method, servers, clients, step number, log entries, WRITEs and READs begun, and the versions that each server holds.
ghost use Rattle.std.specs.Prelude.{◌≡◌, ◌<◌, length, set};
ghost use Rattle.tables.specs.Layout.{count_at};

pub const METHOD: usize = 0;

pub const SERVERS: usize = 1;

pub const CLIENTS: usize = 2;

pub const STEP: usize = 3;

pub const ENTRIES: usize = 4;

pub const WRITES: usize = 5;

pub const READS: usize = 6;
// The versions held by server i stand at HELD + i.
pub const HELD: usize = 7;

pub const WORDS: usize = 23;
// The step number at which only an opening is accepted.
pub const LAST_STEP: u32 = 4294967295;

pub fn count_at(counts: &[u32], field: usize) -> u32
    requires { field < length counts.now }
    ensures { result ≡ count_at counts.now field }
{
    counts[field]
}

pub fn put_count(counts: &mut [u32], field: usize, value: u32)
    requires { field < length counts.old }
    ensures { counts.new ≡ set counts.old field value }
{
    counts[field] = value;
}
