// The load in print, as far as no table is needed: the line that asks for one is read, its opening and its steps are printed as lines
// of a schedule.
#![tactic(auto)]

ghost use Rattle.std.specs.Prelude.{◌≡◌, [], ◌∷◌, ◌+◌, ◌-◌, ◌≤◌, ◌<◌, length, replicate, None};
ghost use Rattle.std.specs.Option.{option_map_or};
ghost use Rattle.std.specs.Result.{result_err, result_unwrap_or};
ghost use Rattle.tables.specs.Tables.{Tables};
ghost use Rattle.rules.specs.Answer.{Ok, Refused};
ghost use Rattle.schedule.specs.Numbers.{numbers_of};
ghost use Rattle.schedule.specs.NumberLaws.{before};
ghost use Rattle.schedule.specs.Steps.{line_most};
ghost use Rattle.printing.specs.StepTexts.{step_line};
ghost use Rattle.printing.specs.Printed.{Printed};
ghost use Rattle.printing.specs.Sizes.{answer_most};
ghost use Rattle.workload.specs.Next as next_step;
ghost use Rattle.workload.specs.Results.{next_given};
ghost use Rattle.load_text.specs.Asked.{asked_for, asked_by, asked_of};
ghost use Rattle.load_text.specs.Given.{refusing, opened_by, picked_by, Gave};

use schedule::Step;
use workload::Pick;

// A load that is wanted.
#[derive(Clone, Copy)]
pub struct Wanted {
    pub seed: u32,
    // how many steps, at most
    pub steps: u32,
    pub method: u32,
    pub servers: u32,
    pub clients: u32,
}

// The run between two turns.
#[derive(Clone, Copy)]
pub struct Giving {
    // how many steps are still wanted: it falls in each turn, so that the run ends
    pub left: u32,
    pub seed: u32,
    // bytes of the print that are not yet written out
    pub used: usize,
}

// What a line asks for, of which the first number is read; none where it asks for no load.
fn ask_behind(seed: u32, part: &[u8]) -> Option<Wanted>
    requires { length part.now ≤ line_most - 1 }
    ensures { asked_for result ≡ asked_by (before (seed ∷ []) (numbers_of part.now)) }
{
    let mut numbers = [0u32; schedule::NUMBERS];
    let count = line_reading::numbers_in(part, &mut numbers)?;
    if count != 4 {
        return None;
    }
    Some(Wanted {
        seed,
        steps: numbers[0],
        method: numbers[1],
        servers: numbers[2],
        clients: numbers[3],
    })
}

// What a line asks for; none where it asks for no load.
pub fn read_asked(line: &[u8]) -> Option<Wanted>
    ensures { asked_for result ≡ asked_of line.now }
{
    if schedule::LINE < line.len() {
        return None;
    }
    let first = line_reading::number_at(line)?;
    ask_behind(first.value, &line[first.size..])
}

// A step with the same setpoint for each server, as a line.
fn print_equal(step: Step, setpoint: u32, servers: u32, out: &mut [u8], at: usize) -> usize
    requires { (servers ≤ 16) × (at + answer_most ≤ length out.old) }
    ensures { Printed out.old at (step_line step (replicate servers setpoint)) result out.new
        × (result ≤ at + answer_most) }
{
    let setpoints = [setpoint; 16];
    step_text::print_step(step, &setpoints[..servers as usize], out, at)
}

// The run of a load that is refused: the number is all that is printed.
pub fn refuse(number: u32, out: &mut [u8]) -> Giving
    requires { answer_most ≤ length out.old }
    ensures { (t : Tables) → Gave (refusing number t) 0 out.old result out.new t }
{
    let used = answer_text::print_refusal(number, out, 0);
    Giving {
        left: 0,
        seed: 0,
        used,
    }
}

// The run behind an opening: its line is printed first. A refusal goes by any number.
pub fn print_opening(wanted: Wanted, answer: Result<(), u8>, out: &mut [u8]) -> Giving
    requires servers_bound { option_map_or Refused (result_err answer) Ok ≡ Ok → wanted.servers ≤ 16 }
    requires answer_most_in_bounds { answer_most ≤ length out.old }
    ensures { (t : Tables) →
        Gave (opened_by wanted (option_map_or Refused (result_err answer) Ok) t) 0 out.old result out.new t }
{
    match answer {
        Err(number) => refuse(number as u32, out),
        Ok(()) => {
            let step = Step::Open(wanted.method, wanted.servers, wanted.clients);
            let used = print_equal(step, 0, wanted.servers, out, 0);
            Giving {
                left: wanted.steps,
                seed: wanted.seed,
                used,
            }
        }
    }
}

// The run behind a pick: the line of the step that it gives is printed; where it gives none, or is refused, no more are wanted.
pub fn print_next(
    run: Giving,
    next: Result<Option<Pick>, u8>,
    servers: u32,
    out: &mut [u8],
    at: usize,
) -> Giving
    requires servers_bound { (servers ≤ 16) × (0 < run.left) }
    requires answer_most_in_bounds { at + answer_most ≤ length out.old }
    ensures { (t : Tables) →
        Gave (picked_by (option_map_or next_step.Refused (result_err next) (next_given (result_unwrap_or next None)))
        servers run.left run.seed t) at out.old result out.new t }
{
    match next {
        Err(_) | Ok(None) => Giving {
            left: 0,
            seed: run.seed,
            used: at,
        },
        Ok(Some(pick)) => {
            let used = print_equal(pick.step.step, pick.step.setpoint, servers, out, at);
            Giving {
                left: run.left - 1,
                seed: pick.seed,
                used,
            }
        }
    }
}
