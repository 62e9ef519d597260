// The step that a line names, read: its numbers, and what names a step from them (`step_naming`).
#![tactic(auto)]

ghost use Rattle.std.specs.Prelude.{◌≡◌, false, ◌-◌, ◌≤◌, length, drop};
ghost use Rattle.schedule.specs.Numbers.{numbers_of};
ghost use Rattle.schedule.specs.Steps.{line_most, setpoints_most};
ghost use Rattle.schedule.specs.Steps.{named_by, step_of, reading_of, Names};
ghost use Rattle.schedule.specs.Pairs.{may_have_setpoints, pair_behind};

use schedule::Reading;

// The step of a first byte and the part of its line behind it. The numbers go to a place for as many as a line can have.
fn read_longer(byte: u8, part: &[u8], setpoints: &mut [u32]) -> Reading
    requires { (length part.now ≤ line_most - 1) × (setpoints_most ≤ length setpoints.old) }
    ensures { Names (named_by byte (numbers_of part.now)) setpoints.old result setpoints.new }
{
    let mut numbers = [0u32; schedule::NUMBERS];
    let Some(count) = line_reading::numbers_in(part, &mut numbers) else {
        return step_naming::unreadable();
    };
    step_naming::name_step(byte, &numbers[..count], setpoints)
}

// The step of a first byte, a first number, and the part of its line from behind that number on.
fn read_second(byte: u8, first: u32, part: &[u8], at: usize) -> Reading
    requires { at ≤ length part.now }
    ensures { result ≡ reading_of (pair_behind byte first (numbers_of (drop at part.now))) }
{
    let Some(second) = line_reading::spaced_at(part, at) else {
        return step_naming::unreadable();
    };
    if at + 1 + second.size == part.len() {
        step_naming::name_pair(byte, first, second.value)
    } else {
        step_naming::unreadable()
    }
}

// The step of two numbers, of a first byte and the part of its line behind it: its numbers need no place.
fn read_pair(byte: u8, part: &[u8]) -> Reading
    requires { may_have_setpoints byte ≡ false }
    ensures { result ≡ reading_of (named_by byte (numbers_of part.now)) }
{
    let Some(first) = line_reading::spaced_at(part, 0) else {
        return step_naming::unreadable();
    };
    read_second(byte, first.value, part, 1 + first.size)
}

// The step that a line names. Its setpoints stand in the lent place; behind them, and where the line has none, it holds what it held.
// A place for as many as a line can have is enough for every line.
#[tactic(auto, unfolding(schedule::specs::Steps::step_of))]
pub fn read_step(line: &[u8], setpoints: &mut [u32]) -> Reading
    requires { setpoints_most ≤ length setpoints.old }
    ensures { Names (step_of line.now) setpoints.old result setpoints.new }
{
    let [byte, part @ ..] = line else {
        return step_naming::unreadable();
    };
    if schedule::LINE < line.len() {
        return step_naming::unreadable();
    }
    if step_naming::has_setpoints(*byte) {
        read_longer(*byte, part, setpoints)
    } else {
        read_pair(*byte, part)
    }
}
