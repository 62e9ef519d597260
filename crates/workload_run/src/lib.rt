// A load as a list: each of its steps written into a lent row of words. `load_run` plays it.
#![tactic(auto)]

ghost use Rattle.std.specs.Prelude.{◌≡◌};
ghost use Rattle.tables.specs.Rows.{HasRow};
ghost use Rattle.workload_run.specs.Run.{step_width, step_words, listed};

use schedule::Step;
use workload::LoadStep;

// The words of a step in the list: its kind, its client, its mask or target, its setpoint.
pub const WIDTH: usize = 4;

// How far a load has come.
#[derive(Clone, Copy)]
pub struct Progress {
    // steps given so far
    pub given: u32,
    pub seed: u32,
}

// The words of a step.
pub fn step_words(picked: LoadStep) -> [u32; WIDTH]
    ensures { result ≡ step_words picked.step picked.setpoint }
{
    match picked.step {
        Step::BeginWrite(client, mask, _) => [0, client, mask, picked.setpoint],
        Step::BeginRead(client, mask) => [1, client, mask, 0],
        Step::Request(client, target) => [2, client, target, 0],
        Step::Reply(client, target) => [3, client, target, 0],
        Step::Unreadable | Step::Open(_, _, _) | Step::Lose(_, _) | Step::Resend(_, _) =>
            [0; WIDTH],
    }
}

// A step, as a row of the list.
pub fn put_step(list: &mut [u32], at: usize, picked: LoadStep)
    requires { HasRow step_width list.old at }
    ensures { list.new ≡ listed list.old at picked }
{
    let row = WIDTH * at;
    list[row..row + WIDTH].copy_from_slice(&step_words(picked));
}
