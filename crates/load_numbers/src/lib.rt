// What a load answers, as it crosses to other languages: the step that it gives next, or a played load's end, each a struct of numbers.
// `workload_exports` answers these; they stand below it, so that an edit of a number proves no load.
#![tactic(auto)]

ghost use Rattle.std.specs.Prelude.{◌≡◌, None, MatchResult};
ghost use Rattle.std.specs.Option.{option_map_or};
ghost use Rattle.std.specs.Result.{result_err, result_unwrap_or};
ghost use Rattle.workload.specs.Next as next_step;
ghost use Rattle.workload.specs.Results.{next_given, next_of};
ghost use Rattle.workload_run.specs.Load.{Played, Refused};
ghost use Rattle.workload_run.specs.Results.{load_of};
ghost use Rattle.load_numbers.specs.Numbers.{pick_of, no_pick, next_numbers, load_numbers};

use causes::Refusal;
use workload::Pick;
use workload_run::Progress;

// A pick as it crosses: 0 and the step, the number of a refusal, or 256 where no step is acceptable.
#[repr(C)]
#[derive(Clone, Copy)]
pub struct LoadPick {
    pub answer: u32,
    // the seed behind the step, or the seed as it was
    pub seed: u32,
    // 0 a WRITE, 1 a READ, 2 a request, 3 a reply
    pub kind: u32,
    pub client: u32,
    // the mask of a begin, the target of a delivery
    pub second: u32,
    // that of every station in a WRITE
    pub setpoint: u32,
}

// A load's end as it crosses: 0, how many steps it gave and the next seed; or the number of a refusal.
#[repr(C)]
#[derive(Clone, Copy)]
pub struct LoadEnd {
    pub answer: u32,
    pub steps: u32,
    pub seed: u32,
}

// No step is given.
fn no_pick(answer: u32, seed: u32) -> LoadPick
    ensures { result ≡ no_pick answer seed }
{
    LoadPick {
        answer,
        seed,
        kind: 0,
        client: 0,
        second: 0,
        setpoint: 0,
    }
}

// A step is given, by its words.
fn given_pick(pick: Pick) -> LoadPick
    ensures { result ≡ pick_of pick.seed pick.step }
{
    let [kind, client, second, setpoint] = workload_run::step_words(pick.step);
    LoadPick {
        answer: 0,
        seed: pick.seed,
        kind,
        client,
        second,
        setpoint,
    }
}

// The next step of a load as it crosses; a refusal goes by any number.
pub fn next_numbers(seed: u32, next: Result<Option<Pick>, u8>) -> LoadPick
    ensures { result
        ≡ next_numbers seed (option_map_or next_step.Refused (result_err next) (next_given (result_unwrap_or next None))) }
{
    match next {
        Err(number) => no_pick(number as u32, seed),
        Ok(None) => no_pick(256, seed),
        Ok(Some(pick)) => given_pick(pick),
    }
}

// What a pick gives, as it crosses.
pub fn of_pick(seed: u32, next: Result<Option<Pick>, Refusal>) -> LoadPick
    ensures { result ≡ next_numbers seed (next_of next) }
{
    next_numbers(seed, causes::numbered(next))
}

// A load's end as it crosses; a refusal goes by any number.
pub fn load_numbers(seed: u32, load: Result<Progress, u8>) -> LoadEnd
    ensures { MatchResult load (λ p. result ≡ load_numbers seed (Played p.given p.seed)) (λ n. result ≡ load_numbers seed (Refused n)) }
{
    match load {
        Ok(progress) => LoadEnd {
            answer: 0,
            steps: progress.given,
            seed: progress.seed,
        },
        Err(number) => LoadEnd {
            answer: number as u32,
            steps: 0,
            seed,
        },
    }
}

// What a load answers, as it crosses.
pub fn of_load(seed: u32, load: Result<Progress, Refusal>) -> LoadEnd
    ensures { result ≡ load_numbers seed (load_of load) }
{
    load_numbers(seed, causes::numbered(load))
}
