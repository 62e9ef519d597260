// A step's answer as it crosses to other languages: 0 for ok, below 256 the number of a refusal, and a delivered reply's answer with what a
// READ shows beside it. The steps that other languages call, on any tables and on tables known to be sound, make their numbers here; so an
// edit of a number proves no step.
#![tactic(auto)]

ghost use Rattle.std.specs.Prelude.{◌≡◌};
ghost use Rattle.std.specs.Option.{option_map_or};
ghost use Rattle.std.specs.Result.{result_err};
ghost use Rattle.rules.specs.Answer.{Ok, Refused};
ghost use Rattle.rules.specs.Results.{answer_by};
ghost use Rattle.step_numbers.specs.Numbers.{answer_number, arrival_number, crossing_of};

use causes::Refusal;
use rules::{Arrival, Delivered};

// An answer as a number; a refusal goes by any number.
pub fn answer_number(answer: Result<(), u8>) -> u32
    ensures { result ≡ answer_number (option_map_or Refused (result_err answer) Ok) }
{
    match answer {
        Ok(()) => 0,
        Err(number) => number as u32,
    }
}

// A step's answer as a number.
pub fn of_step(answer: Result<(), Refusal>) -> u32
    ensures { result ≡ answer_number (answer_by answer) }
{
    answer_number(causes::numbered(answer))
}

// A delivered reply's answer as a number.
pub fn arrival_number(arrival: Arrival) -> u64
    ensures { result ≡ arrival_number arrival }
{
    match arrival {
        Arrival::Wait => 4294967296,
        Arrival::Next => 8589934592,
        Arrival::Write(tag) => 12884901888 + tag as u64,
        Arrival::Read(tag) => 17179869184 + tag as u64,
        Arrival::Refused(number) => number as u64,
    }
}

// A delivered reply's answer as it crosses, and beside it what a READ shows: setpoints, and the tags and badges of the WRITEs that put
// them there; 0 where it shows none.
#[repr(C)]
#[derive(Clone, Copy)]
pub struct Crossing {
    pub number: u64,
    pub setpoints: [u32; 16],
    pub tags: [u32; 16],
    pub badges: [u32; 16],
}

impl From<Delivered> for Crossing {
    // The answer as it crosses.
    fn from(delivered: Delivered) -> Crossing
        ensures { result ≡ crossing_of delivered }
    {
        let Delivered {
            arrival,
            setpoints,
            tags,
            badges,
        } = delivered;
        Crossing {
            number: arrival_number(arrival),
            setpoints,
            tags,
            badges,
        }
    }
}
