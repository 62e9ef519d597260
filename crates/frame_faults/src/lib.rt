// What is wrong with a frame's bytes behind its fixed fields: with its entries, which are judged where they stand, and behind these.
#![tactic(auto)]

ghost use Rattle.std.specs.Prelude.{◌≡◌, ◌+◌, ◌*◌, ◌≤◌, length};
ghost use Rattle.causes.specs.Numbers.{fault_of};
ghost use Rattle.frame_table.specs.Columns.{most_bits};
ghost use Rattle.frame_table.specs.Entry.{key_bits};
ghost use Rattle.formats.specs.Reading.{end_fault};
ghost use Rattle.formats.specs.Judging.{key_fault, number_fault, entry_fault, entries_fault, rest_fault, Number, EntriesAt};

use causes::Refusal;
use frame_table::{KEY_BITS, MASK_BITS};

// What is wrong behind the last field: 11 where more than padding is left, or padding that is not zero.
fn finish(bytes: &[u8], at: usize) -> Result<(), Refusal>
    requires { (at ≤ most_bits) × (at ≤ 8 * length bytes.now) }
    ensures { fault_of result ≡ end_fault bytes.now at }
{
    let n = bytes.len();
    if (at + 7) / 8 < n {
        return Err(Refusal::Malformed);
    }
    if fields::read_field(bytes, at, 8 * n - at) == 0 {
        return Ok(());
    }
    Err(Refusal::Malformed)
}

// What is wrong with the key at a bit: 10 where it is cut short, 11 where its count is 0 and its client is not.
fn key_fault(bytes: &[u8], at: usize) -> Result<(), Refusal>
    requires { at ≤ most_bits }
    ensures { fault_of result ≡ key_fault bytes.now at }
{
    if bytes.len() < (at + KEY_BITS + 7) / 8 {
        return Err(Refusal::CutShort);
    }
    let key = fields::read_field(bytes, at, KEY_BITS);
    if 16 <= key {
        return Ok(());
    }
    if key == 0 {
        return Ok(());
    }
    Err(Refusal::Malformed)
}

// What is wrong with what stands behind the key of an entry, a number or a badge and a number: 10 where it is cut short, 11 where it is
// below its least. It is read only where it has a least, and is a mask then: no badge is wrong by itself.
fn number_fault(bytes: &[u8], at: usize, width: usize, least: u32) -> Result<(), Refusal>
    requires { Number at width least }
    ensures { fault_of result ≡ number_fault bytes.now at width least }
{
    if bytes.len() < (at + width + 7) / 8 {
        return Err(Refusal::CutShort);
    }
    if least == 0 {
        return Ok(());
    }
    if fields::read_field(bytes, at, MASK_BITS) < least {
        return Err(Refusal::Malformed);
    }
    Ok(())
}

// What is wrong with an entry: its key, then the so many bits behind that.
fn entry_fault(bytes: &[u8], at: usize, width: usize, least: u32) -> Result<(), Refusal>
    requires { (at ≤ most_bits) × Number (at + key_bits) width least }
    ensures { fault_of result ≡ entry_fault bytes.now at width least }
{
    key_fault(bytes, at)?;
    number_fault(bytes, at + KEY_BITS, width, least)
}

// The first fault of so many entries from a bit on.
fn entries_fault(
    bytes: &[u8],
    first: usize,
    width: usize,
    least: u32,
    entries: usize,
) -> Result<(), Refusal>
    requires { EntriesAt first width least entries }
    ensures { fault_of result ≡ entries_fault bytes.now first width least entries }
{
    for i in 0..entries {
        entry_fault(bytes, first + i * (KEY_BITS + width), width, least)?;
    }
    Ok(())
}

// The first fault behind the fixed fields: of the entries, or of what stands behind them.
pub fn rest_fault(
    bytes: &[u8],
    at: usize,
    width: usize,
    least: u32,
    entries: usize,
) -> Result<(), Refusal>
    requires { EntriesAt at width least entries × (at ≤ 8 * length bytes.now) }
    ensures { fault_of result ≡ rest_fault bytes.now at width least entries }
{
    entries_fault(bytes, at, width, least, entries)?;
    finish(bytes, at + entries * (KEY_BITS + width))
}
