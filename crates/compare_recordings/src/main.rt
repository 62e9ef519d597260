// Compares two recordings: takes the names of their files, and prints `agree`, `differ panel target place` or `no 16`.
#![tactic(auto)]

ghost use Rattle.std.specs.Prelude.{◌≡◌, ◌≤◌, length, false, IfOk};
ghost use Rattle.compare_recordings.specs.Held.{Holds};

use std::env::{Env, FillError};
use std::fs::{File, Files};
use std::io;
use std::io::Read;

// A file has at most so many bytes, 1 MiB.
const MOST: usize = 1048576;

// The name of a file has at most so many bytes.
const NAME: usize = 4096;

// What was read of a file: where it was not read, or is cut or too long, that is said, and nothing is held.
#[derive(Drop)]
struct Held {
    read: bool,
    bytes: usize,
}

// Space for a file.
fn space() -> [u8; MOST]
    ensures { 1048576 ≡ length result }
{
    [0; MOST]
}

// Says on standard error what is wrong with a file.
fn say(rt: &impl Eprint, name: &str, what: &str) -> io::Result<()> {
    eprintln!(rt; "{name}: {what}")
}

// Says on standard error why a file was not read.
fn fail(rt: &impl Eprint, name: &str, error: io::Error) -> io::Result<()> {
    eprintln!(rt; "{name}: {error}")
}

fn unread() -> Held
    ensures { (result.bytes ≡ 0) × (result.read ≡ false) }
{
    Held {
        read: false,
        bytes: 0,
    }
}

// The file that was opened; one byte more is asked for, to see that it ends. Where the reading fails, nothing is said of the buffer.
fn read_open(
    rt: &impl Eprint,
    opened: &mut impl Read,
    name: &str,
    file: &mut [u8],
) -> io::Result<Held>
    ensures { IfOk result (λ r. Holds r.read r.bytes file.new) }
{
    let held = window::read_full(opened, file)?;
    let mut more = [0u8; 1];
    let got = opened.read(&mut more)?;
    if 0 < got {
        say(rt, name, "longer than 1048576 bytes")?;
        return Ok(unread());
    }
    if !recording_files::is_file(&file[..held]) {
        say(rt, name, "cut, the lengths of its frames are not all there")?;
        return Ok(unread());
    }
    Ok(Held {
        read: true,
        bytes: held,
    })
}

// The file of a name. Where the reading fails, nothing is said of the buffer.
fn read_file(rt: &(impl Files + Eprint), name: &str, file: &mut [u8]) -> io::Result<Held>
    ensures { IfOk result (λ r. Holds r.read r.bytes file.new) }
{
    let mut opened = File::open(rt, name)?;
    read_open(rt, &mut opened, name, file)
}

// The name at a place of the arguments, as text: a name that is not is of no file that can be opened.
fn name_at<'a>(rt: &impl Env, place: usize, space: &'a mut [u8; NAME]) -> io::Result<&'a str> {
    let Ok(size) = rt.arg(place, space) else {
        return Err(io::Error::from(io::ErrorKind::InvalidFilename));
    };
    match str::from_utf8(&space[..size]) {
        Ok(name) => Ok(name),
        Err(_) => Err(io::Error::from(io::ErrorKind::InvalidFilename)),
    }
}

// The file that an argument names. Where it is not read, that is said, and nothing of the buffer.
fn read_named(rt: &(impl Env + Files + Eprint), place: usize, file: &mut [u8]) -> io::Result<Held>
    ensures { IfOk result (λ r. Holds r.read r.bytes file.new) }
{
    let mut space = [0u8; NAME];
    match name_at(rt, place, &mut space) {
        Ok(name) => match read_file(rt, name, file) {
            Ok(held) => Ok(held),
            Err(error) => {
                fail(rt, name, error)?;
                Ok(unread())
            }
        },
        Err(error) => {
            fail(rt, "file name", error)?;
            Ok(unread())
        }
    }
}

// Whether there is an argument at a place.
fn has_argument(rt: &impl Env, place: usize) -> bool {
    let mut space = [0u8; NAME];
    match rt.arg(place, &mut space) {
        Err(FillError::NotPresent) => false,
        _ => true,
    }
}

fn main(rt: HostRuntime) -> io::Result<()> {
    if !has_argument(&rt, 2) || has_argument(&rt, 3) {
        return eprintln!(rt; "compare_recordings: two file names are asked for");
    }
    let mut file = space();
    let mut file2 = space();
    let one = read_named(&rt, 1, &mut file)?;
    if !one.read {
        return Ok(());
    }
    let two = read_named(&rt, 2, &mut file2)?;
    if !two.read {
        return Ok(());
    }
    let n = one.bytes;
    let n2 = two.bytes;
    let mut out = [0u8; recording_files::TEXT];
    let used = recording_files::print_files(&file[..n], &file2[..n2], &mut out);
    Print::write_all(&rt, &out[..used])
}
