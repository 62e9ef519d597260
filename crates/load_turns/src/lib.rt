// The turns of the program that prints a load, on lent tables: the store is opened, then each turn picks a step, plays it, prints its line.
#![tactic(auto)]

ghost use Rattle.std.specs.Prelude.{◌≡◌, ◌-◌, ◌≤◌, ◌<◌, length, IfOk, OnErr};
ghost use Rattle.tables.specs.Lent.{tables_in, SameLent};
ghost use Rattle.tables.specs.Tables.{tables_of};
ghost use Rattle.soundness.specs.Facts.{Sound};
ghost use Rattle.printing.specs.Sizes.{answer_most};
ghost use Rattle.window.specs.Window.{room_from};
ghost use Rattle.load_text.specs.Asked.{asked_for};
ghost use Rattle.load_text.specs.Given.{begins, picks, Gave};

use causes::Refusal;
use load_text::{Giving, Wanted};
use std::io;
use std::io::{Print, Stdin, Stdout};
use tables::counts;
use tables::lent::Press;

// So much of the text is read: a line of as many bytes is too long.
const TEXT: usize = schedule::LINE + 1;

// The first turn: the store is opened for the load that is asked for, with setpoints 0; 16 of them are enough, since more servers are refused
// whatever they are.
// Kept: (a) eight tables: an opening only reads the records, and a Press would ask a `&mut` for them.
pub fn begin_load(
    asked: Option<Wanted>,
    counts: &mut [u32],
    clients: &mut [u32],
    links: &mut [u32],
    keys: &mut [u32],
    values: &mut [u32],
    log: &mut [u32],
    writes: &[u32],
    reads: &[u32],
    out: &mut [u8],
) -> Giving
    requires { answer_most ≤ length out.old }
    ensures { Gave (begins (asked_for asked) (tables_of counts.old clients.old links.old keys.old
        values.old log.old writes.now reads.now)) 0 out.old result out.new
        (tables_of counts.new clients.new links.new keys.new
        values.new log.new writes.now reads.now) }
{
    let Some(wanted) = asked else {
        return load_text::refuse(Refusal::Unreadable.number() as u32, out);
    };
    let zeros = [0u32; 16];
    let given = wanted.servers.min(16) as usize;
    let answer = sound_steps::open(
        counts,
        clients,
        links,
        keys,
        values,
        log,
        writes,
        reads,
        wanted.method,
        wanted.servers,
        wanted.clients,
        &zeros[..given],
    );
    load_text::print_opening(wanted, causes::numbered(answer), out)
}

// One turn: a pick, and the line of the step that it gives behind what is printed so far. An error comes only where the print is written out,
// and the tables and the print are as they were then.
pub fn give_step(
    output: &Stdout,
    run: Giving,
    press: &mut Press,
    out: &mut [u8],
) -> io::Result<Giving>
    requires sound { Sound (tables_in press.old) }
    requires left_nonzero { (0 < run.left) × ((run.used ≤ length out.old) × (answer_most ≤ length out.old)) }
    ensures same { SameLent press.old press.new }
    ensures gave { IfOk result (λ r. Gave (picks run.left run.seed (tables_in press.old))
        (room_from run.used (length out.old)) out.old r out.new (tables_in press.new)) }
    ensures failed_tables { OnErr result (tables_in press.new ≡ tables_in press.old) }
    ensures failed_print { OnErr result (out.new ≡ out.old) }
    ensures failed_full { OnErr result (length out.old - answer_most < run.used) }
{
    let at = window::room_from(output, run.used, &*out)?;
    let servers = counts::count_at(press.lent().counts, counts::SERVERS);
    let next = load_steps::take_step(press, run.seed);
    Ok(load_text::print_next(run, Ok(next), servers, out, at))
}

// Reads the line that asks for a load from standard input and prints the load, opening first, as a schedule; or `no` and the number.
// It is lent no table and answers nothing but an error of reading or writing, so that no contract is left to state: what the system reads and
// writes is in none. What it does is in those of `read_asked`, `begin_load` and `give_step`, and that it ends is part of its proof.
pub fn print_load(input: &mut Stdin, output: &Stdout) -> io::Result<()> {
    let mut text = [0u8; TEXT];
    let held = window::read_full(input, &mut text)?;
    let asked = load_text::read_asked(line_reading::line_at(&text[..held], 0));
    let mut counts = [0u32; counts::WORDS];
    let mut clients = [0u32; streaming::CLIENTS];
    let mut links = [0u32; streaming::LINKS];
    let mut keys = [0u32; streaming::KEYS];
    let mut values = [0u32; streaming::VALUES];
    let mut log = [0u32; streaming::LOG];
    let mut writes = [0u32; streaming::RECORDS];
    let mut reads = [0u32; streaming::RECORDS];
    let mut out = [0u8; window::PRINT];
    let mut run = begin_load(
        asked,
        &mut counts,
        &mut clients,
        &mut links,
        &mut keys,
        &mut values,
        &mut log,
        &writes,
        &reads,
        &mut out,
    );
    let mut press = Press {
        counts: &mut counts,
        clients: &mut clients,
        links: &mut links,
        keys: &mut keys,
        values: &mut values,
        log: &mut log,
        writes: &mut writes,
        reads: &mut reads,
    };
    // Kept: (d) a turn that gives no step sets what is left to 0, so that a `for` over it would test it all the same.
    while 0 < run.left {
        run = give_step(output, run, &mut press, &mut out)?;
    }
    output.write_all(&out[..run.used])
}
