// The tests of a record of the register, and how many records pass them.
// They are for `listing`, which proves what they ask.
#![tactic(auto)]

ghost use Rattle.std.specs.Prelude.{◌≡◌, not, ◌≤◌};
ghost use Rattle.ranges.specs.Sum.{count_below};
ghost use Rattle.tables.specs.Rows.{HasRow};
ghost use Rattle.tables.specs.Layout.{record_width, record_places};
ghost use Rattle.soundness.specs.Asked.{RecordsThere};
ghost use Rattle.record_tests.specs.Records.{is_finished, has_tag, overlaps, overlap};

use tables::records;

// Whether a record has an end.
pub fn is_finished(records: &[u32], place: usize) -> bool
    requires { HasRow record_width records.now place }
    ensures { result ≡ is_finished records.now place }
{
    records::record_word(records, place, records::END) != 0
}

// Whether a record bears a tag.
pub fn has_tag(records: &[u32], tag: u32, place: usize) -> bool
    requires { HasRow record_width records.now place }
    ensures { result ≡ has_tag records.now tag place }
{
    records::record_word(records, place, records::TAG) == tag
}

// Whether a WRITE began before an end, and ended after a begin or has no end.
fn overlaps(writes: &[u32], begin: u32, end: u32, place: usize) -> bool
    requires { HasRow record_width writes.now place }
    ensures { result ≡ overlaps writes.now begin end place }
{
    if end <= records::record_word(writes, place, records::BEGIN) {
        return false;
    }
    if !is_finished(writes, place) {
        return true;
    }
    begin < records::record_word(writes, place, records::END)
}

// The overlap of a READ with its begin and end.
pub fn overlap(writes: &[u32], begun: usize, begin: u32, end: u32) -> u32
    requires { (begun ≤ record_places) × RecordsThere writes.now }
    ensures { result ≡ overlap writes.now begun begin end }
{
    // A chain that filters and counts took twice the instructions for each WRITE.
    let mut found = 0;
    for place in 0..begun {
        if overlaps(writes, begin, end, place) {
            found += 1;
        }
    }
    found
}

// How many WRITEs have a tag.
pub fn count_tagged(writes: &[u32], begun: usize) -> usize
    requires { (begun ≤ record_places) × RecordsThere writes.now }
    ensures { result ≡ count_below (λ place. not (has_tag writes.now 0 place)) begun }
{
    let mut found = 0;
    for place in 0..begun {
        if !has_tag(writes, 0, place) {
            found += 1;
        }
    }
    found
}

// How many READs are finished.
pub fn count_finished(reads: &[u32], begun: usize) -> usize
    requires { (begun ≤ record_places) × RecordsThere reads.now }
    ensures { result ≡ count_below (is_finished reads.now) begun }
{
    let mut found = 0;
    for place in 0..begun {
        if is_finished(reads, place) {
            found += 1;
        }
    }
    found
}
