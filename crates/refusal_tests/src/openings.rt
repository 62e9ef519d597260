// What an opening's numbers are judged by, before any table is looked at.
ghost use Rattle.std.specs.Prelude.{◌≡◌, ◌&&◌, eqb};
ghost use Rattle.refusals.specs.Refusals.{press_opens};

use sound_numbers::scalars;

// Whether a press may be opened: its method is not retired, and method, servers and clients fit.
pub fn opens_press(method: u32, servers: u32, panels: u32) -> bool
    ensures { result ≡ press_opens method servers panels }
{
    !super::is_retired(method) && scalars::press_fits(method, servers, panels)
}

// Whether a press may be opened, and there is a setpoint for each server.
pub fn fits_press(method: u32, servers: u32, panels: u32, given: usize) -> bool
    ensures { result ≡ (press_opens method servers panels && eqb given servers) }
{
    opens_press(method, servers, panels) && given == servers as usize
}
