// Sound tables stay sound: the theorems stand in specs/, one for each step.
#![tactic(auto)]

ghost use Rattle.std.specs.Prelude.{◌≡◌};
ghost use Rattle.keeping.specs.Steps.{may_step};

use tables::counts;

// Whether a step may follow a step number: "any step but an opening at step number 2^32 − 1" is refused.
pub fn may_step(step: u32) -> bool
    ensures { result ≡ may_step step }
{
    step < counts::LAST_STEP
}
