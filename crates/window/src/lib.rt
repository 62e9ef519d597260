// The window through which a text of any length is read from standard input: what is held of the text, how more of it comes in, how the run
// goes on behind a line, and when the print is written out. No table is needed for any of it.
#![tactic(auto)]

ghost use Rattle.std.specs.Prelude.{◌≡◌, ◌+◌, ◌-◌, ◌≤◌, ◌<◌, length, take, drop, IfOk, OnErr};
ghost use Rattle.std.proofs.Math.Seq.{paste};
ghost use Rattle.printing.specs.Sizes.{answer_most};
ghost use Rattle.window.specs.Window.{held_by, lacks_end, room_from, passed, roomy, Came, ReadOn};

use std::io;
use std::io::{Print, Read, Stdin, Stdout};

// The sizes of the window and of the print.
pub const WINDOW: usize = 65536;

pub const PRINT: usize = 65536;

// How many turns a run may have, so that it ends; so many lines cannot come.
pub const TURNS: u64 = 9223372036854775808;

// The run between two turns.
#[derive(Clone, Copy)]
pub struct Run {
    // how many turns may still come: it falls in each, so that the run ends
    pub left: u64,
    // lines answered so far
    pub lines: u64,
    // the window's bytes from..held are read and not yet played
    pub from: usize,
    pub held: usize,
    // bytes of the print that are not yet written out
    pub used: usize,
    // within a line that was found too long for a step, and is answered
    pub skipping: bool,
}

// The run behind a line of this size at its place: behind its byte 10, or within it where that is not held yet.
#[tactic(auto, unfolding(crate::specs::Window::passed))]
pub fn pass(run: Run, size: usize, lines: u64, used: usize) -> Run
    requires { (run.from + size ≤ run.held) × (0 < run.left) }
    ensures { result ≡ passed run size lines used }
{
    let end = run.from + size;
    if end < run.held {
        Run {
            left: run.left - 1,
            lines,
            from: end + 1,
            used,
            skipping: false,
            ..run
        }
    } else {
        Run {
            left: run.left - 1,
            lines,
            from: end,
            used,
            skipping: true,
            ..run
        }
    }
}

// Reads until the space is full or the input ends, and answers how many bytes came.
pub fn read_full(input: &mut impl Read, space: &mut [u8]) -> io::Result<usize>
    ensures { IfOk result (λ held. held ≤ length space.new) }
{
    let mut held = 0;
    while held < space.len() {
        let came = input.read(&mut space[held..])?;
        if came == 0 {
            break;
        }
        held += came;
    }
    Ok(held)
}

// Moves the bytes from..held of the window to its front, and answers how many they are.
fn slide(window: &mut [u8], from: usize, held: usize) -> usize
    requires { (from ≤ held) × (held ≤ length window.old) }
    ensures { (result ≡ held - from) × (window.new ≡ paste window.old 0 (drop from window.old) (held - from)) }
{
    window.copy_within(from..held, 0);
    held - from
}

// Reads into the window behind its first bytes, and answers how many bytes came. Where the reading fails, the first bytes stand too.
fn read_behind(input: &mut Stdin, window: &mut [u8], rest: usize) -> io::Result<usize>
    requires { rest ≤ length window.old }
    ensures within { IfOk result (λ came. rest + came ≤ length window.old) }
    ensures kept { take rest window.new ≡ take rest window.old }
{
    let space = &mut window[rest..];
    input.read(space)
}

// Reads on behind what is held, and answers how many bytes are held then, from the front of the window on.
// At the end of the text what is left of it gets a byte 10. Where the reading fails, what was held stands at the front of the window.
fn refill(input: &mut Stdin, window: &mut [u8], from: usize, held: usize) -> io::Result<usize>
    requires { (from ≤ held) × ((held ≤ length window.old) × (held - from < length window.old)) }
    ensures came { IfOk result (λ now. Came window.old from held now window.new) }
    ensures failed { OnErr result (take (held - from) window.new ≡ drop from (take held window.old)) }
{
    let rest = slide(window, from, held);
    let came = read_behind(input, window, rest)?;
    if came == 0 {
        if rest == 0 {
            return Ok(0);
        }
        window[rest] = 10;
        return Ok(rest + 1);
    }
    Ok(rest + came)
}

// No line's end is held: reads on. The run ends where the text does. Where the reading fails, what was held stands at the front of the window.
pub fn read_on(input: &mut Stdin, run: Run, window: &mut [u8]) -> io::Result<Run>
    requires from_le_held { (run.from ≤ run.held) × ((run.held ≤ length window.old) × (run.held - run.from < length window.old)) }
    requires left_nonzero { 0 < run.left }
    ensures read { IfOk result (λ r. ReadOn run window.old r window.new) }
    ensures failed { OnErr result (take (run.held - run.from) window.new ≡ held_by run window.old) }
{
    let held = refill(input, window, run.from, run.held)?;
    let left = if 0 < held { run.left - 1 } else { 0 };
    Ok(Run {
        left,
        from: 0,
        held,
        ..run
    })
}

// Writes the print out where it is nearly full. It answers where the print goes on. An error comes only where the print is written out, and
// nothing that is lent is changed then.
#[tactic(auto, unfolding(crate::specs::Window::room_from))]
pub fn room_from(output: &Stdout, used: usize, out: &[u8]) -> io::Result<usize>
    requires { (used ≤ length out.now) × (answer_most ≤ length out.now) }
    ensures went_on { IfOk result (λ next. next ≡ room_from used (length out.now)) }
    ensures failed { OnErr result (length out.now - answer_most < used) }
{
    if out.len() - printing::ANSWER < used {
        output.write_all(&out[..used])?;
        return Ok(0);
    }
    Ok(used)
}

// The run with room for an answer in its print. An error comes only where the print is written out, and nothing that is lent is changed then.
pub fn make_room(output: &Stdout, run: Run, out: &[u8]) -> io::Result<Run>
    requires { (run.used ≤ length out.now) × (answer_most ≤ length out.now) }
    ensures went_on { IfOk result (λ r. r ≡ roomy run (room_from run.used (length out.now))) }
    ensures failed { OnErr result (length out.now - answer_most < run.used) }
{
    Ok(Run {
        used: room_from(output, run.used, out)?,
        ..run
    })
}

// Whether a line of this size, at the front of so many bytes that are held, has neither its end there nor more bytes than a step's line.
#[tactic(auto, unfolding(crate::specs::Window::lacks_end))]
pub fn lacks_end(size: usize, held: usize) -> bool
    ensures { result ≡ lacks_end size held }
{
    size <= schedule::LINE && held <= size
}
