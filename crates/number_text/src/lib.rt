// Bytes and numbers, printed into lent space.
// Kept: what is printed stands in lent space by `Printed`, to the byte and with no heap; format! allocates, and of Display no clause says the bytes.
// Kept: a struct of `out` and `at` was tried here: each clause then says too that its slice keeps its length and its loan, which `out` has alone.
#![tactic(auto)]

ghost use Rattle.std.specs.Prelude.{◌+◌, ◌≤◌, ◌<◌, [], ◌∷◌, length};
ghost use Rattle.schedule.specs.Decimal.{decimal};
ghost use Rattle.printing.specs.Texts.{marked, spaced};
ghost use Rattle.printing.specs.Printed.{Printed};
ghost use Rattle.printing.specs.Digits.{last_digits};
ghost use Rattle.printing.specs.Sizes.{marked_most};

// One byte.
pub fn put_byte(byte: u8, out: &mut [u8], at: usize) -> usize
    requires { at < length out.old }
    ensures { Printed out.old at (byte ∷ []) result out.new }
{
    out[at] = byte;
    at + 1
}

// Two digits.
fn put_two(number: u64, out: &mut [u8], at: usize) -> usize
    requires { (number < 100) × (at + 2 ≤ length out.old) }
    ensures { Printed out.old at (last_digits 2 number) result out.new }
{
    let next = put_byte(48 + (number / 10) as u8, out, at);
    put_byte(48 + (number % 10) as u8, out, next)
}

// Four digits, with zeros in front.
fn put_four(number: u64, out: &mut [u8], at: usize) -> usize
    requires { (number < 10000) × (at + 4 ≤ length out.old) }
    ensures { Printed out.old at (last_digits 4 number) result out.new }
{
    let next = put_two(number / 100, out, at);
    put_two(number % 100, out, next)
}

// A number of at most four digits.
fn print_short(number: u64, out: &mut [u8], at: usize) -> usize
    requires { (number < 10000) × (at + length (decimal number) ≤ length out.old) }
    ensures { Printed out.old at (decimal number) result out.new }
{
    if number < 10 {
        return put_byte(48 + number as u8, out, at);
    }
    if number < 100 {
        return put_two(number, out, at);
    }
    if number < 1000 {
        let next = put_byte(48 + (number / 100) as u8, out, at);
        return put_two(number % 100, out, next);
    }
    put_four(number, out, at)
}

// A number of any length: the digits before the last four are printed first.
fn print_long(number: u64, out: &mut [u8], at: usize) -> usize
    requires { at + length (decimal number) ≤ length out.old }
    ensures { Printed out.old at (decimal number) result out.new }
{
    if number < 10000 {
        return print_short(number, out, at);
    }
    let next = print_long(number / 10000, out, at);
    put_four(number % 10000, out, next)
}

// A number of at most eight digits, with no call of itself: most numbers are such, and so take one call.
fn print_middle(number: u64, out: &mut [u8], at: usize) -> usize
    requires { (number < 100000000) × (at + length (decimal number) ≤ length out.old) }
    ensures { Printed out.old at (decimal number) result out.new }
{
    if number < 10000 {
        return print_short(number, out, at);
    }
    let next = print_short(number / 10000, out, at);
    put_four(number % 10000, out, next)
}

// A number in decimal.
pub fn print_decimal(number: u64, out: &mut [u8], at: usize) -> usize
    requires { at + length (decimal number) ≤ length out.old }
    ensures { Printed out.old at (decimal number) result out.new }
{
    if number < 100000000 {
        return print_middle(number, out, at);
    }
    print_long(number, out, at)
}

// Some bytes.
pub fn print_bytes(text: &[u8], out: &mut [u8], at: usize) -> usize
    requires { at + length text.now ≤ length out.old }
    ensures { Printed out.old at text.now result out.new }
{
    let end = at + text.len();
    out[at..end].copy_from_slice(text);
    end
}

// A number behind a byte.
pub fn print_marked(byte: u8, number: u32, out: &mut [u8], at: usize) -> usize
    requires { at + marked_most ≤ length out.old }
    ensures { Printed out.old at (marked byte number) result out.new × (result ≤ at + marked_most) }
{
    let next = put_byte(byte, out, at);
    print_decimal(number as u64, out, next)
}

// A number behind one space.
pub fn print_spaced(number: u32, out: &mut [u8], at: usize) -> usize
    requires { at + marked_most ≤ length out.old }
    ensures { Printed out.old at (spaced number) result out.new × (result ≤ at + marked_most) }
{
    print_marked(b' ', number, out, at)
}
