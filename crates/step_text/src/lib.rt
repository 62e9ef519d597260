// A step as a line of a schedule, printed into lent space.
#![tactic(auto)]

ghost use Rattle.std.specs.Prelude.{◌+◌, ◌≤◌, [], ◌∷◌, ◌++◌, length};
ghost use Rattle.printing.specs.Texts.{row_text};
ghost use Rattle.printing.specs.Printed.{Printed};
ghost use Rattle.printing.specs.Sizes.{row_most};
ghost use Rattle.printing.specs.StepTexts.{step_line, step_most};

use schedule::Step;

// A line of a byte and some numbers, and some more behind them.
fn print_longer_row(byte: u8, numbers: &[u32], more: &[u32], out: &mut [u8], at: usize) -> usize
    requires { at + row_most (length numbers.now + length more.now) ≤ length out.old }
    ensures { Printed out.old at (row_text byte (numbers.now ++ more.now)) result out.new
        × (result ≤ at + row_most (length numbers.now + length more.now)) }
{
    let behind = record_text::print_lettered(byte, numbers, out, at);
    let next = record_text::print_numbers(more, out, behind);
    number_text::put_byte(b'\n', out, next)
}

// A line of a byte and two numbers.
fn print_pair(byte: u8, first: u32, second: u32, out: &mut [u8], at: usize) -> usize
    requires { at + row_most 2 ≤ length out.old }
    ensures { Printed out.old at (row_text byte (first ∷ second ∷ [])) result out.new × (result ≤ at + row_most 2) }
{
    let numbers = [first, second];
    record_text::print_row(byte, &numbers, out, at)
}

// A step as a line of a schedule. Setpoints count for an opening and a WRITE alone. What is no step has a line that names none: a byte 0.
pub fn print_step(step: Step, setpoints: &[u32], out: &mut [u8], at: usize) -> usize
    requires { at + step_most (length setpoints.now) ≤ length out.old }
    ensures { Printed out.old at (step_line step setpoints.now) result out.new
        × (result ≤ at + step_most (length setpoints.now)) }
{
    match step {
        Step::Unreadable => record_text::print_row(0, &setpoints[..0], out, at),
        Step::Open(method, servers, clients) => {
            let numbers = [method, servers, clients];
            print_longer_row(b'O', &numbers, setpoints, out, at)
        }
        Step::BeginWrite(client, mask, badge) => {
            let numbers = [client, mask, badge as u32];
            print_longer_row(b'W', &numbers, setpoints, out, at)
        }
        Step::BeginRead(client, mask) => print_pair(b'R', client, mask, out, at),
        Step::Request(client, target) => print_pair(b'>', client, target, out, at),
        Step::Reply(client, target) => print_pair(b'<', client, target, out, at),
        Step::Lose(client, target) => print_pair(b'!', client, target, out, at),
        Step::Resend(client, target) => print_pair(b'+', client, target, out, at),
    }
}
