// The step of a line's first byte and its numbers, with its setpoints stored. Reading the line stands above in `step_reading`, so that an
// edit of what names a step does not prove it.
#![tactic(auto)]

ghost use Rattle.std.specs.Prelude.{◌≡◌, ◌≤◌, length};
ghost use Rattle.schedule.specs.Steps.{alone, unreadable, named, named_open, named_write, pair_named};
ghost use Rattle.schedule.specs.Steps.{reading_of, stored, Names};
ghost use Rattle.schedule.specs.Pairs.{may_have_setpoints};
ghost use Rattle.schedule.specs.StepLaws.{Fits};

use schedule::{Reading, Step};

// What a line gives whose step has no setpoints.
fn alone(step: Step) -> Reading
    ensures { result ≡ reading_of (alone step) }
{
    Reading { step, setpoints: 0 }
}

// What a line gives that names no step.
pub fn unreadable() -> Reading
    ensures { result ≡ reading_of unreadable }
{
    alone(Step::Unreadable)
}

// Some numbers into the place lent for setpoints.
fn store_setpoints(numbers: &[u32], setpoints: &mut [u32])
    requires { length numbers.now ≤ length setpoints.old }
    ensures { setpoints.new ≡ stored numbers.now setpoints.old }
{
    setpoints[..numbers.len()].copy_from_slice(numbers);
}

// The opening that the numbers of a line name.
fn name_open(numbers: &[u32], setpoints: &mut [u32]) -> Reading
    requires { Fits numbers.now setpoints.old }
    ensures { Names (named_open numbers.now) setpoints.old result setpoints.new }
{
    let [method, servers, clients, given @ ..] = numbers else {
        return unreadable();
    };
    store_setpoints(given, setpoints);
    Reading {
        step: Step::Open(*method, *servers, *clients),
        setpoints: given.len(),
    }
}

// The WRITE that the numbers of a line begin.
fn name_write(numbers: &[u32], setpoints: &mut [u32]) -> Reading
    requires { Fits numbers.now setpoints.old }
    ensures { Names (named_write numbers.now) setpoints.old result setpoints.new }
{
    let [client, mask, badge, given @ ..] = numbers else {
        return unreadable();
    };
    let Ok(badge) = u16::try_from(*badge) else {
        return unreadable();
    };
    store_setpoints(given, setpoints);
    Reading {
        step: Step::BeginWrite(*client, *mask, badge),
        setpoints: given.len(),
    }
}

// The step of two numbers whose line begins with a byte.
pub fn name_pair(byte: u8, first: u32, second: u32) -> Reading
    ensures { result ≡ reading_of (pair_named byte first second) }
{
    match byte {
        b'R' => alone(Step::BeginRead(first, second)),
        b'>' => alone(Step::Request(first, second)),
        b'<' => alone(Step::Reply(first, second)),
        b'!' => alone(Step::Lose(first, second)),
        b'+' => alone(Step::Resend(first, second)),
        _ => unreadable(),
    }
}

// The step of a line's first byte and its numbers.
pub fn name_step(byte: u8, numbers: &[u32], setpoints: &mut [u32]) -> Reading
    requires { Fits numbers.now setpoints.old }
    ensures { Names (named byte numbers.now) setpoints.old result setpoints.new }
{
    match byte {
        b'O' => name_open(numbers, setpoints),
        b'W' => name_write(numbers, setpoints),
        _ => match numbers {
            [first, second] => name_pair(byte, *first, *second),
            _ => unreadable(),
        },
    }
}

// Whether a line that begins with a byte may have setpoints: an opening's or a WRITE's.
#[tactic(auto, unfolding(schedule::specs::Pairs::may_have_setpoints))]
pub fn has_setpoints(byte: u8) -> bool
    ensures { result ≡ may_have_setpoints byte }
{
    matches!(byte, b'O' | b'W')
}
