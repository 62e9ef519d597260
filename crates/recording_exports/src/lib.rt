// What other languages call: two recordings compared, by slices; the answer crosses as a number.
#![tactic(auto)]

ghost use Rattle.std.specs.Prelude.{◌≡◌};
ghost use Rattle.recordings.specs.Comparing.{compared};
ghost use Rattle.recordings.specs.Results.{compared_by};
ghost use Rattle.recording_exports.specs.Numbers.{differ_number, compared_number};

use causes::Refusal;
use recordings::{Difference, Recording};

// A difference as a number.
fn differ_number(client: u8, target: u8, place: u32) -> u64
    ensures { result ≡ differ_number client target place }
{
    let link = client as u64 * 256 + target as u64;
    4294967296 + link * 65536 + place as u64
}

fn compared_number(answer: Result<Option<Difference>, Refusal>) -> u64
    ensures { result ≡ compared_number (compared_by answer) }
{
    match answer {
        Ok(None) => 0,
        Ok(Some(difference)) => differ_number(
            difference.client,
            difference.target,
            difference.place,
        ),
        Err(refusal) => refusal.number() as u64,
    }
}

// Compares two recordings, each the lengths of its frames and their bytes end to end: 0 where they agree; else 2^32, and below it client,
// target and the place on that link of the first difference; or 16, where a recording is none.
#[unsafe(no_mangle)]
pub extern "C" fn recordings_compare(
    lengths: &[u32],
    bytes: &[u8],
    lengths2: &[u32],
    bytes2: &[u8],
) -> u64
    ensures { result ≡ compared_number (compared lengths.now bytes.now
        lengths2.now bytes2.now) }
{
    let one = Recording { lengths, bytes };
    let other = Recording {
        lengths: lengths2,
        bytes: bytes2,
    };
    compared_number(comparing::compare(&one, &other))
}
