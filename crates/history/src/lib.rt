// The register's records: a transaction's begin, and a READ's end. A WRITE's tag and its end are one word each, put by `requests` and `replies`.
#![tactic(auto)]

ghost use Rattle.std.specs.Prelude.{◌≡◌};
ghost use Rattle.rules.specs.Common.{begun_counts, begun_records, ended_record, tagged_record};
ghost use Rattle.tables.specs.Rows.{HasRow};
ghost use Rattle.tables.specs.Layout.{record_width};
ghost use Rattle.history.specs.Ready.{BeginReady};

use tables::{counts, records};

// A transaction begins: its record goes to the next place of its kind, with a badge (0 for a READ), no tag and no end; the kind's count and
// the step number grow.
pub fn begin(
    counts: &mut [u32],
    records: &mut [u32],
    kind: usize,
    client: u32,
    number: u32,
    badge: u32,
)
    requires { BeginReady counts.old records.old kind }
    ensures counts { counts.new ≡ begun_counts kind counts.old }
    ensures records { records.new ≡ begun_records kind counts.old client number badge records.old }
{
    let begun = counts::count_at(counts, kind);
    let step = counts::count_at(counts, counts::STEP);
    records::put_begun(records, begun as usize, client, number, step + 1, badge);
    counts::put_count(counts, kind, begun + 1);
    counts::put_count(counts, counts::STEP, step + 1);
}

// A READ ends: its tag and the step number go into its record.
pub fn end_read(records: &mut [u32], place: usize, tag: u32, step: u32)
    requires { HasRow record_width records.old place }
    ensures { records.new ≡ ended_record place step (tagged_record place tag records.old) }
{
    records::put_record_word(records, place, records::TAG, tag);
    records::put_record_word(records, place, records::END, step);
}
