// Plays a text of any length from standard input through a window, line by line, and prints the answers, gathered, to standard output.
#![tactic(auto)]

ghost use Rattle.std.specs.Prelude.{◌≡◌, ◌+◌, ◌-◌, ◌≤◌, ◌<◌, ◌⊎◌, true, cond, length, take, drop, IfOk, OnErr};
ghost use Rattle.tables.specs.Lent.{tables_in, SameLent};
ghost use Rattle.schedule.specs.Steps.{setpoints_most};
ghost use Rattle.printing.specs.Printed.{Printed};
ghost use Rattle.printing.specs.Sizes.{answer_most};
ghost use Rattle.register_text.specs.Text.{register_most, register_printed};
ghost use Rattle.playing.specs.Playable.{Playable};
ghost use Rattle.window.specs.Window.{turns_most, held_by, wants_more, Going};
ghost use Rattle.turn.specs.Turned.{Answered, Turned};

use std::io;
use std::io::{Print, Stdin, Stdout};
use tables::lent::Press;
use tables::{clients, counts, links, log, records, versions};
use window::Run;

// The sizes of the program's tables, made as `Sizes` makes them: tables for as many servers and clients as a store can have.
const MOST_SERVERS: usize = 16;

const MOST_CLIENTS: usize = 16;

pub const CLIENTS: usize = clients::WIDTH * MOST_CLIENTS;

pub const LINKS: usize = links::WIDTH * (links::TARGETS * MOST_CLIENTS);

pub const KEYS: usize = versions::PLACES * MOST_SERVERS;

pub const VALUES: usize = versions::WIDTH * (versions::PLACES * MOST_SERVERS);

pub const LOG: usize = log::WIDTH * log::PLACES;

pub const RECORDS: usize = records::WIDTH * records::PLACES;

// Answers a line, unless it is answered already, and passes it. The place for setpoints is lent from outside the run's loop, so that it is
// cleared once; what it holds is of no account.
fn answer_line(
    run: Run,
    press: &mut Press,
    line: &[u8],
    setpoints: &mut [u32],
    out: &mut [u8],
) -> Run
    requires playable { Playable (tables_in press.old) }
    requires line_bound { (run.from + length line.now ≤ run.held) × (0 < run.left) }
    requires answer_most_in_bounds { (run.used + answer_most ≤ length out.old) × (run.lines + run.left ≤ turns_most) }
    requires setpoints_most_in_bounds { setpoints_most ≤ length setpoints.old }
    ensures same { SameLent press.old press.new }
    ensures answered { Answered run line.now (tables_in press.old) out.old result out.new (tables_in press.new) }
{
    let size = line.len();
    if run.skipping {
        return window::pass(run, size, run.lines, run.used);
    }
    let number = run.lines + 1;
    let used = line_playing::play_line(press, number, line, setpoints, out, run.used);
    window::pass(run, size, number, used)
}

// One turn: a line whose end is held, or that is too long, is answered; else more is read. An error comes only where more is read or the print
// is written out. Then the tables and the print are as they were, and what was held and not yet played stands in the window: at its front where
// more was wanted, else where it stood.
fn turn(
    input: &mut Stdin,
    output: &Stdout,
    run: Run,
    press: &mut Press,
    setpoints: &mut [u32],
    window: &mut [u8],
    out: &mut [u8],
) -> io::Result<Run>
    requires playable { Playable (tables_in press.old) }
    requires going { Going run window.old out.old × (0 < run.left) }
    requires setpoints_most_in_bounds { setpoints_most ≤ length setpoints.old }
    ensures same { SameLent press.old press.new }
    ensures turned { IfOk result (λ r. Turned run window.old out.old (tables_in press.old) r window.new out.new (tables_in press.new)) }
    ensures failed_tables { OnErr result (tables_in press.new ≡ tables_in press.old) }
    ensures failed_print { OnErr result (out.new ≡ out.old) }
    ensures failed_only { OnErr result ((wants_more run window.old ≡ true) ⊎ (length out.old - answer_most < run.used)) }
    ensures failed_window { OnErr result (take (run.held - run.from) (drop (cond (wants_more run window.old) 0 run.from) window.new) ≡ held_by run window.old) }
{
    let from = run.from;
    let held = run.held;
    let line = line_reading::line_at(&window[..held], from);
    if window::lacks_end(line.len(), held - from) {
        return window::read_on(input, run, window);
    }
    let ready = window::make_room(output, run, &*out)?;
    Ok(answer_line(ready, press, line, setpoints, out))
}

// Plays standard input to its end, and prints the answers and the register. It is lent no table and answers nothing but an error of reading or
// writing, so that no contract is left to state: what the system reads and writes is in none. What it does is in those of `turn` and
// `texts::print_end`, and that it ends is part of its proof.
pub fn replay(input: &mut Stdin, output: &Stdout) -> io::Result<()> {
    let mut counts = [0u32; counts::WORDS];
    let mut clients = [0u32; CLIENTS];
    let mut links = [0u32; LINKS];
    let mut keys = [0u32; KEYS];
    let mut values = [0u32; VALUES];
    let mut log = [0u32; LOG];
    let mut writes = [0u32; RECORDS];
    let mut reads = [0u32; RECORDS];
    let mut setpoints = [0u32; schedule::SETPOINTS];
    let mut window = [0u8; window::WINDOW];
    let mut out = [0u8; window::PRINT];
    let mut run = Run {
        left: window::TURNS,
        lines: 0,
        from: 0,
        held: 0,
        used: 0,
        skipping: false,
    };
    let mut press = Press {
        counts: &mut counts,
        clients: &mut clients,
        links: &mut links,
        keys: &mut keys,
        values: &mut values,
        log: &mut log,
        writes: &mut writes,
        reads: &mut reads,
    };
    while 0 < run.left {
        run = turn(
            input,
            output,
            run,
            &mut press,
            &mut setpoints,
            &mut window,
            &mut out,
        )?;
    }
    output.write_all(&out[..run.used])?;
    let end = texts::print_end(&press.lent(), &mut out, 0);
    output.write_all(&out[..end])
}
