// The answers, printed into lent space.
#![tactic(auto)]

ghost use Rattle.std.specs.Prelude.{◌≡◌, ◌+◌, ◌≤◌, ◌++◌, length};
ghost use Rattle.printing.specs.Texts.{spaced, word_text, answer_text};
ghost use Rattle.printing.specs.Printed.{Printed};
ghost use Rattle.printing.specs.Plain.{shows_servers, plain_text, plain_answer, plain_room, plain_most};
ghost use Rattle.printing.specs.Sizes.{marked_most, word_most, answer_most};
ghost use Rattle.printing.specs.StepTexts.{refusal_text, refusal_most};

use printing::{Servers, Word};

// A word, and a tag or a number behind it.
fn print_tagged(text: &[u8], tag: u32, out: &mut [u8], at: usize) -> usize
    requires { at + length text.now + marked_most ≤ length out.old }
    ensures { Printed out.old at (text.now ++ spaced tag) result out.new × (result ≤ at + length text.now + marked_most) }
{
    let next = number_text::print_bytes(text, out, at);
    number_text::print_spaced(tag, out, next)
}

// Whether an answer shows servers: a READ's alone does.
pub fn shows_servers(word: Word) -> bool
    ensures { result ≡ shows_servers word }
{
    matches!(word, Word::Read(_))
}

// The answer behind the line's number, without the servers that it shows.
fn print_plain(word: Word, out: &mut [u8], at: usize) -> usize
    requires { at + plain_room ≤ length out.old }
    ensures { Printed out.old at (plain_text word) result out.new × (result ≤ at + plain_most word) }
{
    match word {
        Word::Ok => number_text::print_bytes(b" ok", out, at),
        Word::Wait => number_text::print_bytes(b" wait", out, at),
        Word::Next => number_text::print_bytes(b" next", out, at),
        Word::Write(tag) => print_tagged(b" write", tag, out, at),
        Word::Read(tag) => print_tagged(b" read", tag, out, at),
        Word::No(number) => print_tagged(b" no", number, out, at),
    }
}

// The answer behind the line's number.
fn print_word(word: Word, shown: &Servers, out: &mut [u8], at: usize) -> usize
    requires { at + word_most ≤ length out.old }
    ensures { Printed out.old at
        (word_text word shown.now.mask shown.now.setpoints.now shown.now.tags.now shown.now.badges.now) result out.new
        × (result ≤ at + word_most) }
{
    let next = print_plain(word, out, at);
    if shows_servers(word) {
        return server_text::print_servers(shown, out, next);
    }
    next
}

// The line that answers the line of a number. The servers count for a READ alone.
pub fn print_answer(number: u64, word: Word, shown: &Servers, out: &mut [u8], at: usize) -> usize
    requires { at + answer_most ≤ length out.old }
    ensures { Printed out.old at
        (answer_text number word shown.now.mask shown.now.setpoints.now shown.now.tags.now shown.now.badges.now) result out.new
        × (result ≤ at + answer_most) }
{
    let behind = number_text::print_decimal(number, out, at);
    let next = print_word(word, shown, out, behind);
    number_text::put_byte(b'\n', out, next)
}

// The same where the answer shows no servers: none are asked for.
pub fn print_plain_answer(number: u64, word: Word, out: &mut [u8], at: usize) -> usize
    requires { at + answer_most ≤ length out.old }
    ensures { Printed out.old at (plain_answer number word) result out.new × (result ≤ at + answer_most) }
{
    let behind = number_text::print_decimal(number, out, at);
    let next = print_plain(word, out, behind);
    number_text::put_byte(b'\n', out, next)
}

// `no` and the number of a refusal, as a line of its own.
pub fn print_refusal(number: u32, out: &mut [u8], at: usize) -> usize
    requires { at + refusal_most ≤ length out.old }
    ensures { Printed out.old at (refusal_text number) result out.new × (result ≤ at + refusal_most) }
{
    let next = print_tagged(b"no", number, out, at);
    number_text::put_byte(b'\n', out, next)
}
