// A line of a text, and the numbers of a line, read.
#![tactic(auto)]

ghost use Rattle.std.specs.Prelude.{◌≡◌, ◌-◌, ◌≤◌, length, drop};
ghost use Rattle.schedule.specs.Lines.{line_of, end_of};
ghost use Rattle.schedule.specs.Numbers.{digit_of, number_of, spaced_of, numbers_of, count_of};
ghost use Rattle.schedule.specs.Number.{digit_read, number_by, numbers_by};
ghost use Rattle.schedule.specs.Steps.{line_most, numbers_most, stored};

use schedule::Numeral;

// Where the line that begins at start ends: at its byte 10, or at the end of the text.
pub fn line_end(text: &[u8], start: usize) -> usize
    ensures { result ≡ end_of text.now start }
{
    let Some(rest) = text.get(start..) else {
        return start;
    };
    start + rest.iter().position(|b| *b == 10).unwrap_or(rest.len())
}

// The line that begins at start, a part of the text; past its end the empty line.
pub fn line_at(text: &[u8], start: usize) -> &[u8]
    ensures { result.now ≡ line_of (drop start text.now) }
{
    if text.len() < start {
        return &text[0..0];
    }
    let end = line_end(text, start);
    &text[start..end]
}

// A digit's worth.
fn digit_of(byte: u8) -> Option<u64>
    ensures { result ≡ digit_read (digit_of byte) }
{
    match byte {
        b'0'..=b'9' => Some((byte - b'0') as u64),
        _ => None,
    }
}

// The number at the front of a part of a line, up to the first byte that is no digit.
pub fn number_at(part: &[u8]) -> Option<Numeral>
    ensures { number_by result ≡ number_of part.now }
{
    let mut value = digit_of(*part.first()?)?;
    for size in 1..part.len() {
        let Some(digit) = digit_of(part[size]) else {
            return Some(Numeral {
                value: value as u32,
                size,
            });
        };
        if value == 0 {
            return None;
        }
        value = value * 10 + digit;
        if 4294967295 < value {
            return None;
        }
    }
    Some(Numeral {
        value: value as u32,
        size: part.len(),
    })
}

// A space at a place of the part, and the number behind it: the part from there on goes to the number reader.
#[tactic(auto, unfolding(schedule::specs::Numbers::spaced_of))]
pub fn spaced_at(part: &[u8], at: usize) -> Option<Numeral>
    ensures { number_by result ≡ spaced_of (drop at part.now) }
{
    match part.get(at..)? {
        [b' ', behind @ ..] => number_at(behind),
        _ => None,
    }
}

// The numbers of a part of a line, each behind one space, into a place for as many as fit a line. The line's first byte is not in it.
pub fn numbers_in(part: &[u8], numbers: &mut [u32]) -> Option<usize>
    requires { (length part.now ≤ line_most - 1) × (numbers_most ≤ length numbers.old) }
    ensures { (numbers_by result ≡ count_of (numbers_of part.now))
        × (numbers.new ≡ stored (numbers_of part.now).numbers numbers.old) }
{
    let mut at = 0;
    let mut count = 0;
    // Kept: a turn goes on by the bytes that its number took, which is no step of a range and of no iterator over the bytes.
    while at < part.len() {
        let read = spaced_at(part, at)?;
        numbers[count] = read.value;
        at = at + 1 + read.size;
        count += 1;
    }
    Some(count)
}
