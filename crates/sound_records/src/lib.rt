// Whether the records are sound: each in its range; as many WRITEs as the counts together; one without an end for each busy client, of the
// kind it is doing. A small function decides each small definition of `soundness/Sound`, in whose words it is named, for every contents of
// the tables that it is not lent. What it asks, `sound_tables` has tested before.
#![tactic(auto)]

ghost use Rattle.std.specs.Prelude.{◌≡◌, ◌+◌, ◌*◌, ◌≤◌, ◌<◌, length};
ghost use Rattle.ranges.specs.All.{all_below};
ghost use Rattle.ranges.specs.Sum.{sum_below, count_below};
ghost use Rattle.tables.specs.Rows.{HasRow};
ghost use Rattle.tables.specs.Layout.{client_width, record_width, record_places, count_at, writes_field, reads_field};
ghost use Rattle.tables.specs.Tables.{Tables, with_counts, with_clients, with_writes, with_reads, clients_of, writes_of, reads_of, count_of};
ghost use Rattle.soundness.specs.Sound.{write_sound, read_sound, is_open, open_sound, records_sound};
ghost use Rattle.soundness.specs.Parts.{counts_sound, history_sound};
ghost use Rattle.soundness.specs.Asked.{Counted, RecordsThere, RowsThere};
ghost use Rattle.sound_records.specs.Opens.{OpenCounts};

use sound_numbers::{scalars, states};
use tables::{clients, counts, records};

fn write_sound(counts: &[u32], writes: &[u32], place: usize) -> bool
    requires counted { Counted counts.now }
    requires has_row { HasRow record_width writes.now place }
    ensures { (t : Tables) → result ≡ write_sound (with_writes writes.now (with_counts counts.now t)) place }
{
    if counts::count_at(counts, counts::CLIENTS)
        <= records::record_word(writes, place, records::CLIENT)
    {
        return false;
    }
    if !scalars::between(1, records::record_word(writes, place, records::NUMBER), 255) {
        return false;
    }
    if counts::count_at(counts, counts::ENTRIES)
        <= records::record_word(writes, place, records::TAG)
    {
        return false;
    }
    scalars::badge_fits(records::record_word(writes, place, records::BADGE))
}

fn writes_sound(counts: &[u32], writes: &[u32]) -> bool
    requires counted { Counted counts.now }
    requires records_there { RecordsThere writes.now }
    ensures { (t : Tables) → let u = with_writes writes.now (with_counts counts.now t) in result ≡ all_below (write_sound u) (writes_of u) }
{
    let begun = counts::count_at(counts, counts::WRITES) as usize;
    (0..begun).all(|place| write_sound(counts, writes, place))
}

fn read_sound(counts: &[u32], reads: &[u32], place: usize) -> bool
    requires counted { Counted counts.now }
    requires has_row { HasRow record_width reads.now place }
    ensures { (t : Tables) → result ≡ read_sound (with_reads reads.now (with_counts counts.now t)) place }
{
    if counts::count_at(counts, counts::CLIENTS)
        <= records::record_word(reads, place, records::CLIENT)
    {
        return false;
    }
    if !keys::mask_within(
        records::record_word(reads, place, records::NUMBER),
        counts::count_at(counts, counts::SERVERS),
    ) {
        return false;
    }
    records::record_word(reads, place, records::TAG) < counts::count_at(counts, counts::ENTRIES)
}

// Kept: (d) beside writes_sound: each is one chain, and what they test and promise differs.
fn reads_sound(counts: &[u32], reads: &[u32]) -> bool
    requires counted { Counted counts.now }
    requires records_there { RecordsThere reads.now }
    ensures { (t : Tables) → let u = with_reads reads.now (with_counts counts.now t) in result ≡ all_below (read_sound u) (reads_of u) }
{
    let begun = counts::count_at(counts, counts::READS) as usize;
    (0..begun).all(|place| read_sound(counts, reads, place))
}

// Whether a record is of a client and has no end.
fn is_open(records: &[u32], client: usize, place: usize) -> bool
    requires { HasRow record_width records.now place }
    ensures { result ≡ is_open records.now client place }
{
    if records::record_word(records, place, records::CLIENT) as usize != client {
        return false;
    }
    records::record_word(records, place, records::END) == 0
}

// One record more: where it has no end, it counts for its client.
fn count_open(records: &[u32], place: usize, found: &mut [u32; 16])
    requires place_lt_record_places { (place < record_places) × HasRow record_width records.now place }
    requires open_counts { OpenCounts records.now place found.old }
    ensures { OpenCounts records.now (place + 1) found.new }
{
    let end = records::record_word(records, place, records::END);
    if end != 0 {
        return;
    }
    let client = records::record_word(records, place, records::CLIENT) as usize;
    if 16 <= client {
        return;
    }
    found[client] += 1;
}

// How many records without an end each of sixteen clients has, in one pass.
fn open_counts(records: &[u32], begun: usize) -> [u32; 16]
    requires { (begun ≤ record_places) × RecordsThere records.now }
    ensures { OpenCounts records.now begun result }
{
    let mut found = [0u32; 16];
    for place in 0..begun {
        count_open(records, place, &mut found);
    }
    found
}

// Exactly one record without an end, at the place that the client's row has, where the client does such a transaction; else none.
fn open_sound(
    doing: bool,
    records: &[u32],
    begun: usize,
    client: usize,
    place: usize,
    found: u32,
) -> bool
    requires begun_le_record_places { (begun ≤ record_places) × RecordsThere records.now }
    requires found_value { found ≡ count_below (is_open records.now client) begun }
    ensures { result ≡ open_sound doing records.now begun client place }
{
    if !doing {
        return found == 0;
    }
    if found != 1 {
        return false;
    }
    if begun <= place {
        return false;
    }
    is_open(records, client, place)
}

// One client's records without an end: of the WRITEs, and of the READs.
fn records_sound(
    counts: &[u32],
    clients: &[u32],
    writes: &[u32],
    reads: &[u32],
    client: usize,
    writing: u32,
    reading: u32,
) -> bool
    requires counted { Counted counts.now }
    requires has_row { HasRow client_width clients.now client }
    requires records_there { RecordsThere writes.now × RecordsThere reads.now }
    requires writing_value { (writing ≡ count_below (is_open writes.now client) (count_at counts.now writes_field)) × (reading ≡ count_below (is_open reads.now client) (count_at counts.now reads_field)) }
    ensures { (t : Tables) → result ≡ records_sound (with_reads reads.now (with_writes writes.now (with_clients clients.now (with_counts counts.now t)))) client }
{
    let state = clients::client_word(clients, client, clients::STATE);
    let place = clients::client_word(clients, client, clients::RECORD) as usize;
    let writes_begun = counts::count_at(counts, counts::WRITES) as usize;
    if !open_sound(
        states::is_writing(state),
        writes,
        writes_begun,
        client,
        place,
        writing,
    ) {
        return false;
    }
    let reads_begun = counts::count_at(counts, counts::READS) as usize;
    open_sound(
        states::is_reading(state),
        reads,
        reads_begun,
        client,
        place,
        reading,
    )
}

fn all_records_sound(counts: &[u32], clients: &[u32], writes: &[u32], reads: &[u32]) -> bool
    requires counted { Counted counts.now }
    requires rows_there { RowsThere counts.now clients.now }
    requires records_there { RecordsThere writes.now × RecordsThere reads.now }
    ensures { (t : Tables) → let u = with_reads reads.now (with_writes writes.now (with_clients clients.now (with_counts counts.now t))) in result ≡ all_below (records_sound u) (clients_of u) }
{
    let writing = open_counts(writes, counts::count_at(counts, counts::WRITES) as usize);
    let reading = open_counts(reads, counts::count_at(counts, counts::READS) as usize);
    let rows = counts::count_at(counts, counts::CLIENTS) as usize;
    (0..rows).all(|client| {
        records_sound(
            counts,
            clients,
            writes,
            reads,
            client,
            writing[client],
            reading[client],
        )
    })
}

// All counts together. Each is below 2^32, so that sixteen of them fit.
fn counts_together(clients: &[u32], rows: usize) -> u64
    requires { (rows ≤ 16) × (client_width * rows ≤ length clients.now) }
    ensures { (t : Tables) → result ≡ sum_below (count_of (with_clients clients.now t)) rows }
{
    let mut total: u64 = 0;
    for client in 0..rows {
        total += clients::client_word(clients, client, clients::COUNT) as u64;
    }
    total
}

// As many WRITEs begun as all counts together.
fn counts_sound(counts: &[u32], clients: &[u32]) -> bool
    requires counted { Counted counts.now }
    requires rows_there { RowsThere counts.now clients.now }
    ensures { (t : Tables) → result ≡ counts_sound (with_clients clients.now (with_counts counts.now t)) }
{
    let rows = counts::count_at(counts, counts::CLIENTS) as usize;
    let writes = counts::count_at(counts, counts::WRITES) as u64;
    counts_together(clients, rows) == writes
}

pub fn history_sound(counts: &[u32], clients: &[u32], writes: &[u32], reads: &[u32]) -> bool
    requires counted { Counted counts.now }
    requires rows_there { RowsThere counts.now clients.now }
    requires records_there { RecordsThere writes.now × RecordsThere reads.now }
    ensures { (t : Tables) → result ≡ history_sound (with_reads reads.now (with_writes writes.now (with_clients clients.now (with_counts counts.now t)))) }
{
    if !counts_sound(counts, clients) {
        return false;
    }
    if !writes_sound(counts, writes) {
        return false;
    }
    if !reads_sound(counts, reads) {
        return false;
    }
    all_records_sound(counts, clients, writes, reads)
}
