// The servers that a READ's answer shows, printed into lent space.
#![tactic(auto)]

ghost use Rattle.std.specs.Prelude.{◌+◌, ◌≤◌, ◌<◌, length};
ghost use Rattle.printing.specs.Texts.{server_text, masked_text, servers_below};
ghost use Rattle.printing.specs.Printed.{Printed};
ghost use Rattle.printing.specs.Sizes.{server_most, shown_most};

use printing::Servers;

// A server with its setpoint, and with tag and badge of the WRITE that it comes from.
fn print_server(
    server: u32,
    setpoint: u32,
    tag: u32,
    badge: u32,
    out: &mut [u8],
    at: usize,
) -> usize
    requires { (server < 16) × (at + server_most ≤ length out.old) }
    ensures { Printed out.old at (server_text server setpoint tag badge) result out.new
        × (result ≤ at + server_most) }
{
    let behind = number_text::print_spaced(server, out, at);
    let next = number_text::print_marked(b'=', setpoint, out, behind);
    let last = number_text::print_marked(b'@', tag, out, next);
    number_text::print_marked(b'#', badge, out, last)
}

// A server with its setpoint, tag and badge, where the mask has it.
fn print_masked(shown: &Servers, server: usize, out: &mut [u8], at: usize) -> usize
    requires server_bound { server < 16 }
    requires server_most_in_bounds { at + server_most ≤ length out.old }
    ensures { Printed out.old at
        (masked_text shown.now.mask shown.now.setpoints.now shown.now.tags.now shown.now.badges.now server) result out.new
        × (result ≤ at + server_most) }
{
    if keys::has_server(shown.mask, server) {
        return print_server(
            server as u32,
            shown.setpoints[server],
            shown.tags[server],
            shown.badges[server],
            out,
            at,
        );
    }
    at
}

// The servers of a mask, rising, each with its setpoint, tag and badge.
pub fn print_servers(shown: &Servers, out: &mut [u8], at: usize) -> usize
    requires { at + shown_most ≤ length out.old }
    ensures { Printed out.old at
        (servers_below shown.now.mask shown.now.setpoints.now shown.now.tags.now shown.now.badges.now 16) result out.new
        × (result ≤ at + shown_most) }
{
    let mut next = at;
    for server in 0..16 {
        next = print_masked(shown, server, out, next);
    }
    next
}
