// From bytes to values by the format of frames: the fixed fields one by one, then the entries, until the first fault. Only the fixed values
// are kept. What the world calls is `frames::read_frame`.
#![tactic(auto)]

ghost use Rattle.std.specs.Prelude.{◌≡◌, ◌*◌, ◌≤◌, ◌<◌, length, IfOk};
ghost use Rattle.frame_table.specs.Columns.{most_bits};
ghost use Rattle.frame_table.specs.Table.{sorts};
ghost use Rattle.formats.specs.Grammar.{read};
ghost use Rattle.formats.specs.Format.{sort_of, field_of, format};
ghost use Rattle.formats.specs.Reading.{took_at, scan_of};
ghost use Rattle.formats.specs.Results.{Takes, scan_by};

use causes::Refusal;
use formats::reading::{Scan, Took};
use formats::state;
use formats::state::State;
use frame_table::{ENTRY_BADGE, ENTRY_FIELDS, FIXED_FIELDS, Field, LAST_KIND, MANY, NUMBER};

// 10 where the field is cut short, 11 where its value is not one that it may have.
fn take(bytes: &[u8], at: usize, field: Field) -> Result<Took, Refusal>
    requires { (at ≤ most_bits) × (field.width ≤ 32) }
    ensures { Takes result (took_at bytes.now at field) }
{
    let width = field.width;
    if bytes.len() < (at + width + 7) / 8 {
        return Err(Refusal::CutShort);
    }
    let value = fields::read_field(bytes, at, width);
    if value < field.least {
        return Err(Refusal::Malformed);
    }
    if field.most < value {
        return Err(Refusal::Malformed);
    }
    Ok(Took { width, value })
}

// The next field as it is read; `sort` is what it holds. One that the kind lacks is in no byte.
fn taken(bytes: &[u8], at: usize, sort: u8, state: State) -> Result<Took, Refusal>
    requires { (at ≤ most_bits) × (at ≤ 8 * length bytes.now) × (sort ≡ sort_of state) × (sort < sorts) }
    ensures takes { Takes result (took_at bytes.now at (field_of state)) }
    ensures narrow { IfOk result (λ t. t.width ≤ 32) }
{
    if sort == frame_table::NO {
        return Ok(Took { width: 0, value: 0 });
    }
    let field = state::field_at(sort, state);
    take(bytes, at, field)
}

// What a frame's bytes hold. The kind is read ahead of the other fields, so that its row of the table is taken once.
pub fn scan_frame(bytes: &[u8]) -> Result<Scan, Refusal>
    ensures { scan_by result ≡ scan_of (read format bytes.now 0) }
{
    if bytes.len() == 0 {
        return Err(Refusal::CutShort);
    }
    let kind = fields::read_field(bytes, 0, frame_table::KIND_BITS);
    if LAST_KIND < kind {
        return Err(Refusal::Malformed);
    }
    let shape = frame_table::shape_of(kind);
    let row = frame_table::row_of(kind, frame_table::target_of(shape));
    let mut fixed = [0u32; FIXED_FIELDS];
    let mut state = state::first();
    let mut at: usize = 0;
    // Kept: with `for place in 0..FIXED_FIELDS` the compiler no longer unrolls the loop, and the bar of frames without entries is missed (kind 2 read: 590 instructions for 260).
    while state.place < FIXED_FIELDS {
        let place = state.place;
        let sort = row[place];
        let took = taken(bytes, at, sort, state)?;
        fixed[place] = took.value;
        at += took.width;
        state = state::next(sort, state, took.value);
    }
    let entries = frame_table::entries_in(row[MANY], fixed[MANY]);
    let behind = frame_table::behind_key(row[ENTRY_BADGE], row[NUMBER]);
    frame_faults::rest_fault(
        bytes,
        at,
        behind.badge + behind.width,
        behind.least,
        entries,
    )?;
    Ok(Scan {
        fields: FIXED_FIELDS + ENTRY_FIELDS * entries,
        fixed,
    })
}
