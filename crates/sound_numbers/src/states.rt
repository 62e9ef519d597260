// The states of a client: which its method and part allow, and which links each uses.
ghost use Rattle.std.specs.Prelude.{◌≡◌, ◌<◌};
ghost use Rattle.soundness.specs.Sound.{is_writing, is_reading, state_allowed, uses};

use super::scalars;
use rules::states;
use tables::links;

// A WRITE is in progress.
pub fn is_writing(state: u32) -> bool
    ensures { result ≡ is_writing state }
{
    if state == states::WRITING {
        return true;
    }
    state == states::ENTERING
}

// A READ is in progress.
pub fn is_reading(state: u32) -> bool
    ensures { result ≡ is_reading state }
{
    scalars::between(states::ASKING_KEYS, state, states::ASKING_ALL)
}

pub fn state_allowed(method: u32, client: usize, state: u32) -> bool
    ensures { result ≡ state_allowed method client state }
{
    if state == states::IDLE {
        return true;
    }
    if method == 1 {
        if client == 0 {
            return state == states::ASKING_SETPOINTS;
        }
        return is_writing(state);
    }
    if method == 2 {
        if is_writing(state) {
            return true;
        }
        if state == states::ASKING_KEYS {
            return true;
        }
        return state == states::ASKING_SETPOINTS;
    }
    if is_writing(state) {
        return true;
    }
    state == states::ASKING_ALL
}

// Whether a client in a state may have something on the link to a target.
pub fn uses(state: u32, mask: u32, target: usize) -> bool
    requires { target < 32 }
    ensures { result ≡ uses state mask target }
{
    match state {
        states::WRITING => keys::has_server(mask, target),
        states::ASKING_SETPOINTS => keys::has_server(mask, target),
        states::ENTERING => target == links::COORDINATOR,
        states::ASKING_KEYS => target == links::COORDINATOR,
        states::ASKING_ALL => {
            if keys::has_server(mask, target) {
                return true;
            }
            target == links::COORDINATOR
        }
        _ => false,
    }
}
