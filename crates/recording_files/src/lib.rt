// The file of a recording: the number of frames, their lengths, each of four bytes, most significant first, then the frames' bytes. Two of
// them compared, and what the program prints of that. No file is opened here.
#![tactic(auto)]

ghost use Rattle.std.specs.Prelude.{◌≡◌, true, ◌+◌, ◌*◌, ◌≤◌, ◌<◌, length, get_or, None};
ghost use Rattle.std.specs.Option.{option_map_or};
ghost use Rattle.std.specs.Result.{result_err, result_unwrap_or};
ghost use Rattle.ranges.specs.Laid.{laid};
ghost use Rattle.printing.specs.Printed.{Printed};
ghost use Rattle.recordings.specs.Compared.{Refused};
ghost use Rattle.recordings.specs.Results.{agreement_by, compared_by};
ghost use Rattle.recording_files.specs.File.{word_at, frames_in, is_file, length_at, compared_files, differ_text, compared_text, text_most};
ghost use Rattle.recording_files.specs.FileLaws.{Lengths, LengthsRead, Place, Counts};

use causes::Refusal;
use recordings::{Difference, Recording};

// One length more than a recording may have: a file that says more frames is refused whatever they are.
const MOST_READ: usize = 4097;
// The longest print has at most so many bytes.
pub const TEXT: usize = 40;

fn byte_at(file: &[u8], at: usize) -> u32
    requires { at < length file.now }
    ensures { (result ≡ get_or file.now at 0) × (result < 256) }
{
    file[at] as u32
}

fn word_at(file: &[u8], at: usize) -> u32
    requires { at + 4 ≤ length file.now }
    ensures { result ≡ word_at file.now at }
{
    let high = byte_at(file, at) * 256 + byte_at(file, at + 1);
    let low = byte_at(file, at + 2) * 256 + byte_at(file, at + 3);
    high * 65536 + low
}

// A file that is not cut.
pub fn is_file(file: &[u8]) -> bool
    ensures { result ≡ is_file file.now }
{
    if file.len() == 0 {
        return true;
    }
    if file.len() < 4 {
        return false;
    }
    word_at(file, 0) as usize <= (file.len() - 4) / 4
}

fn frames_in(file: &[u8]) -> usize
    requires { is_file file.now ≡ true }
    ensures { result ≡ frames_in file.now }
{
    if file.len() == 0 {
        return 0;
    }
    word_at(file, 0) as usize
}

// Where the frames' bytes begin.
fn bytes_place(file: &[u8]) -> usize
    requires { is_file file.now ≡ true }
    ensures { Place file.now result }
{
    if file.len() == 0 {
        return 0;
    }
    4 + 4 * frames_in(file)
}

// The first n lengths.
fn store_lengths(file: &[u8], lengths: &mut [u32], n: usize)
    requires { Lengths file.now n (length lengths.old) }
    ensures { lengths.new ≡ laid (length_at file.now) n lengths.old }
{
    for i in 0..n {
        lengths[i] = word_at(file, 4 + 4 * i);
    }
}

// As many lengths as may be needed, and how many.
fn read_lengths(file: &[u8], lengths: &mut [u32]) -> usize
    requires { (is_file file.now ≡ true) × (length lengths.old ≡ 4097) }
    ensures { LengthsRead file.now lengths.old lengths.new result }
{
    let n = frames_in(file).min(MOST_READ);
    store_lengths(file, lengths, n);
    n
}

// Two files compared.
pub fn compare_files(file: &[u8], file2: &[u8]) -> Result<Option<Difference>, Refusal>
    requires { (is_file file.now ≡ true) × (is_file file2.now ≡ true) }
    ensures { compared_by result ≡ compared_files file.now file2.now }
{
    let mut lengths = [0u32; MOST_READ];
    let mut lengths2 = [0u32; MOST_READ];
    let n = read_lengths(file, &mut lengths);
    let n2 = read_lengths(file2, &mut lengths2);
    let at = bytes_place(file);
    let at2 = bytes_place(file2);
    let one = Recording {
        lengths: &lengths[..n],
        bytes: &file[at..],
    };
    let other = Recording {
        lengths: &lengths2[..n2],
        bytes: &file2[at2..],
    };
    comparing::compare(&one, &other)
}

// A difference.
fn print_difference(difference: Difference, out: &mut [u8]) -> usize
    requires { text_most ≤ length out.old }
    ensures { Printed out.old 0 (differ_text difference.client difference.target difference.place) result out.new × (result ≤ text_most) }
{
    let word = number_text::print_bytes(b"differ", out, 0);
    let panel = number_text::print_spaced(difference.client as u32, out, word);
    let end = number_text::print_spaced(difference.target as u32, out, panel);
    let last = number_text::print_spaced(difference.place, out, end);
    number_text::put_byte(b'\n', out, last)
}

// What is printed of an answer; a refusal goes by any number.
pub fn print_compared(answer: Result<Option<Difference>, u8>, out: &mut [u8]) -> usize
    requires { text_most ≤ length out.old }
    ensures { Printed out.old 0
        (compared_text (option_map_or Refused (result_err answer) (agreement_by (result_unwrap_or answer None))))
        result out.new × (result ≤ text_most) }
{
    match answer {
        Ok(None) => number_text::print_bytes(b"agree\n", out, 0),
        Ok(Some(difference)) => print_difference(difference, out),
        Err(number) => answer_text::print_refusal(number as u32, out, 0),
    }
}

// What is printed of two files.
pub fn print_files(file: &[u8], file2: &[u8], out: &mut [u8]) -> usize
    requires { (is_file file.now ≡ true) × (is_file file2.now ≡ true) × (text_most ≤ length out.old) }
    ensures { Printed out.old 0 (compared_text (compared_files file.now file2.now)) result
        out.new × Counts result out.new }
{
    let answer = compare_files(file, file2);
    print_compared(causes::numbered(answer), out)
}
