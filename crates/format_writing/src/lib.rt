// From values to bytes, by the format: all values are tested before the first byte is written.
// Its functions are for `frames`, which proves what they ask; what the world calls is `frames::write_frame`.
#![tactic(auto)]

ghost use Rattle.std.specs.Prelude.{◌≡◌, ◌+◌, ◌*◌, ◌^◌, ◌≤◌, ◌<◌, true, ◌&&◌, ltb, length, get_or};
ghost use Rattle.formats.specs.Grammar.{good, lay, zeros};
ghost use Rattle.ranges.specs.All.{all_below};
ghost use Rattle.fields.specs.Bits.{put_field};
ghost use Rattle.frame_table.specs.Table.{sorts, fixed_fields, row_of, bits_of};
ghost use Rattle.formats.specs.Format.{sort_of, width_of, within, allowed, format};
ghost use Rattle.formats.specs.Entries.{values_by};
ghost use Rattle.frame_table.specs.Columns.{most_bits, Packable};
ghost use Rattle.frame_table.specs.Entry.{badge_width, Slim, entry_bits};
ghost use Rattle.format_writing.specs.Writing.{wrote_of, bytes_after};
ghost use Rattle.format_writing.specs.Results.{wrote_by};
ghost use Rattle.formats.specs.Walk.{first_bit};
ghost use Rattle.format_writing.specs.Laying.{Layable};
ghost use Rattle.format_writing.specs.Packing.{right_at, key_right, number_right, badge_of, entries_right, laid_to};
ghost use Rattle.format_writing.specs.Packing.{entry_laid, entries_laid, FixedIn, Beside, EntriesIn};

use causes::Refusal;
use formats::state;
use formats::state::State;
use frame_table::{
    BADGE_BITS, Behind, ENTRY_BADGE, FIXED_FIELDS, Field, KEY_BITS, LAST_KIND, MANY, NUMBER, PLACES,
};

// Whether a value fits a width.
fn fits_in(value: u32, width: usize) -> bool
    requires { width ≤ 32 }
    ensures { result ≡ ltb value (2 ^ width) }
{
    if width < 32 {
        return value >> width == 0;
    }
    true
}

// Whether a field may have a value.
fn allows(field: Field, value: u32) -> bool
    requires { field.width ≤ 32 }
    ensures { result ≡ (ltb value (2 ^ field.width) && within field value) }
{
    if !fits_in(value, field.width) {
        return false;
    }
    if value < field.least {
        return false;
    }
    value <= field.most
}

// Whether the next field may have a value; `sort` is what it holds. One that the kind lacks has the value 0.
fn may_have(sort: u8, state: State, value: u32) -> bool
    requires { (sort ≡ sort_of state) × (sort < sorts) }
    ensures { result ≡ (ltb value (2 ^ width_of state) && allowed state value) }
{
    if sort == frame_table::NO {
        return value == 0;
    }
    let field = state::field_at(sort, state);
    allows(field, value)
}

// Whether the fixed values are those of a frame; `row` is what the fields of their kind hold.
fn fixed_right(row: &[u8; PLACES], fixed: &[u32; FIXED_FIELDS]) -> bool
    requires { row.now ≡ row_of (get_or fixed.now 0 0) }
    ensures { result ≡ all_below (right_at fixed.now) fixed_fields }
{
    let mut state = state::first();
    for place in 0..FIXED_FIELDS {
        let sort = row[place];
        let value = fixed[place];
        if !may_have(sort, state, value) {
            return false;
        }
        state = state::next(sort, state, value);
    }
    true
}

// Whether an entry may have a key, as a number.
fn key_right(key: u32) -> bool
    ensures { result ≡ key_right key }
{
    let count = key / 256;
    let owner = key % 256;
    if 255 < count {
        return false;
    }
    if 15 < owner {
        return false;
    }
    if count != 0 {
        return true;
    }
    owner == 0
}

// Whether an entry may have a number of so many bits.
fn number_right(number: u32, width: usize, least: u32) -> bool
    requires { width ≤ 32 }
    ensures { result ≡ number_right width least number }
{
    if number < least {
        return false;
    }
    fits_in(number, width)
}

// Whether an entry may have its badge; one that has no bits is none.
fn badge_right(width: usize, badges: &[u32], i: usize) -> bool
    requires { (width ≡ 0 → ⊥) → (width ≡ badge_width) × (i < length badges.now) }
    ensures { result ≡ ltb (badge_of width badges.now i) (2 ^ width) }
{
    if width == 0 {
        return true;
    }
    fits_in(badges[i], BADGE_BITS)
}

// Whether so many entries are those of a frame.
fn entries_right(
    behind: Behind,
    keys: &[u32],
    badges: &[u32],
    numbers: &[u32],
    entries: usize,
) -> bool
    requires { Beside behind entries (length keys.now) (length badges.now) (length numbers.now) }
    ensures { result ≡ entries_right behind keys.now badges.now numbers.now 0 entries }
{
    for i in 0..entries {
        if !key_right(keys[i]) {
            return false;
        }
        if !badge_right(behind.badge, badges, i) {
            return false;
        }
        if !number_right(numbers[i], behind.width, behind.least) {
            return false;
        }
    }
    true
}

// Whether the values are those of a frame; `row` is what the fields of their kind hold.
fn writable(
    row: &[u8; PLACES],
    fixed: &[u32; FIXED_FIELDS],
    keys: &[u32],
    badges: &[u32],
    numbers: &[u32],
    entries: usize,
) -> bool
    requires { (row.now ≡ row_of (get_or fixed.now 0 0)) × Packable fixed.now keys.now badges.now numbers.now entries }
    ensures { result
        ≡ good format (values_by fixed.now keys.now badges.now numbers.now entries) }
{
    if !fixed_right(row, fixed) {
        return false;
    }
    if entries != frame_table::entries_in(row[MANY], fixed[MANY]) {
        return false;
    }
    let behind = frame_table::behind_key(row[ENTRY_BADGE], row[NUMBER]);
    entries_right(behind, keys, badges, numbers, entries)
}

// A value in the field at a bit: how many bits that has; `sort` is what it holds. One that the kind lacks has none.
fn lay_field(sort: u8, at: usize, value: u32, bytes: &mut [u8]) -> usize
    requires { (sort < sorts) × (at + bits_of sort ≤ 8 * length bytes.old) }
    ensures { (result ≡ bits_of sort) × (bytes.new ≡ put_field bytes.old at (bits_of sort) value) }
{
    if sort == frame_table::NO {
        return 0;
    }
    let limits = frame_table::limits_of(sort);
    let width = limits.width;
    fields::write_field(bytes, at, width, value);
    width
}

// The fixed fields, one behind the other: the bit behind them.
fn lay_fixed(row: &[u8; PLACES], fixed: &[u32; FIXED_FIELDS], bytes: &mut [u8]) -> usize
    requires { FixedIn row.now fixed.now (length bytes.old) }
    ensures { (result ≡ first_bit fixed.now fixed_fields)
        × (bytes.new ≡ laid_to fixed.now bytes.old fixed_fields) }
{
    let mut at = 0;
    for place in 0..FIXED_FIELDS {
        at += lay_field(row[place], at, fixed[place], bytes);
    }
    at
}

// The badge of an entry at a bit; one that has no bits is laid nowhere.
fn lay_badge(at: usize, width: usize, badges: &[u32], i: usize, bytes: &mut [u8])
    requires { ((width ≡ 0 → ⊥) → (width ≡ badge_width) × (i < length badges.now)) × (at + width ≤ 8 * length bytes.old) }
    ensures { bytes.new ≡ put_field bytes.old at width (badge_of width badges.now i) }
{
    if width == 0 {
        return;
    }
    fields::write_field(bytes, at, BADGE_BITS, badges[i]);
}

// An entry at a bit: its key, which is laid as one field, its badge, and its number.
fn lay_entry(
    at: usize,
    behind: Behind,
    key: u32,
    badges: &[u32],
    i: usize,
    number: u32,
    bytes: &mut [u8],
)
    requires { Slim behind × ((behind.badge ≡ 0 → ⊥) → i < length badges.now) × (at + entry_bits behind ≤ most_bits)
        × (at + entry_bits behind ≤ 8 * length bytes.old) × (key_right key ≡ true) }
    ensures { bytes.new
        ≡ entry_laid behind key (badge_of behind.badge badges.now i) number bytes.old at }
{
    fields::write_field(bytes, at, KEY_BITS, key / 256 * 16 + key % 256);
    lay_badge(at + KEY_BITS, behind.badge, badges, i, bytes);
    fields::write_field(bytes, at + KEY_BITS + behind.badge, behind.width, number);
}

// So many entries, one behind the other, from a bit on.
fn lay_entries(
    first: usize,
    behind: Behind,
    keys: &[u32],
    badges: &[u32],
    numbers: &[u32],
    entries: usize,
    bytes: &mut [u8],
)
    requires { EntriesIn first behind entries (length keys.now) (length badges.now) (length numbers.now) (length bytes.old)
        × (entries_right behind keys.now badges.now numbers.now 0 entries ≡ true) }
    ensures { bytes.new
        ≡ entries_laid behind keys.now badges.now numbers.now 0 entries bytes.old first }
{
    let mut at = first;
    for i in 0..entries {
        lay_entry(at, behind, keys[i], badges, i, numbers[i], bytes);
        at += KEY_BITS + behind.badge + behind.width;
    }
}

// The frame of the values over zero bits.
fn fill(
    row: &[u8; PLACES],
    fixed: &[u32; FIXED_FIELDS],
    keys: &[u32],
    badges: &[u32],
    numbers: &[u32],
    entries: usize,
    bytes: &mut [u8],
)
    requires { Layable row.now fixed.now keys.now badges.now numbers.now entries (length bytes.old) }
    ensures { bytes.new
        ≡ lay format (values_by fixed.now keys.now badges.now numbers.now entries)
        (zeros (length bytes.old)) 0 }
{
    bytes.fill(0);
    let first = lay_fixed(row, fixed, bytes);
    let behind = frame_table::behind_key(row[ENTRY_BADGE], row[NUMBER]);
    lay_entries(first, behind, keys, badges, numbers, entries, bytes);
}

// The frame of the fixed values and of so many entries at the front of the bytes: 11 where they are no frame's values, then 12 where
// the frame does not fit.
pub fn write_values(
    fixed: &[u32; FIXED_FIELDS],
    keys: &[u32],
    badges: &[u32],
    numbers: &[u32],
    entries: usize,
    bytes: &mut [u8],
) -> Result<usize, Refusal>
    requires { Packable fixed.now keys.now badges.now numbers.now entries }
    ensures { (wrote_by result
        ≡ wrote_of (values_by fixed.now keys.now badges.now numbers.now entries)
        bytes.old)
        × (bytes.new
        ≡ bytes_after (values_by fixed.now keys.now badges.now numbers.now entries)
        bytes.old) }
{
    let kind = fixed[0];
    if LAST_KIND < kind {
        return Err(Refusal::Malformed);
    }
    let shape = frame_table::shape_of(kind);
    let row = frame_table::row_of(kind, frame_table::target_of(shape));
    if !writable(&row, fixed, keys, badges, numbers, entries) {
        return Err(Refusal::Malformed);
    }
    let length = frame_table::frame_length(shape, entries);
    if bytes.len() < length {
        return Err(Refusal::NoRoom);
    }
    fill(
        &row,
        fixed,
        keys,
        badges,
        numbers,
        entries,
        &mut bytes[..length],
    );
    Ok(length)
}
