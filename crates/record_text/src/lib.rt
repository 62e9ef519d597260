// A line of a byte and some numbers, and the register's lines, printed into lent space.
#![tactic(auto)]

ghost use Rattle.std.specs.Prelude.{◌+◌, ◌*◌, ◌≤◌, [], ◌∷◌, ◌++◌, length};
ghost use Rattle.schedule.specs.Decimal.{spaced_all};
ghost use Rattle.printing.specs.Texts.{end_text, write_text, read_text, row_text};
ghost use Rattle.printing.specs.Printed.{Printed};
ghost use Rattle.printing.specs.Sizes.{marked_most, row_most, record_most};

// Some numbers, each behind one space.
pub fn print_numbers(numbers: &[u32], out: &mut [u8], at: usize) -> usize
    requires { at + marked_most * length numbers.now ≤ length out.old }
    ensures { Printed out.old at (spaced_all numbers.now) result out.new × (result ≤ at + marked_most * length numbers.now) }
{
    let mut next = at;
    for number in numbers {
        next = number_text::print_spaced(*number, out, next);
    }
    next
}

// A byte, and some numbers behind it.
pub fn print_lettered(byte: u8, numbers: &[u32], out: &mut [u8], at: usize) -> usize
    requires { at + 1 + marked_most * length numbers.now ≤ length out.old }
    ensures { Printed out.old at ((byte ∷ []) ++ spaced_all numbers.now) result out.new × (result ≤ at + 1 + marked_most * length numbers.now) }
{
    let next = number_text::put_byte(byte, out, at);
    print_numbers(numbers, out, next)
}

// A line of a byte and some numbers.
pub fn print_row(byte: u8, numbers: &[u32], out: &mut [u8], at: usize) -> usize
    requires { at + row_most (length numbers.now) ≤ length out.old }
    ensures { Printed out.old at (row_text byte numbers.now) result out.new
        × (result ≤ at + row_most (length numbers.now)) }
{
    let next = print_lettered(byte, numbers, out, at);
    number_text::put_byte(b'\n', out, next)
}

// The end step of a WRITE.
// Kept: `write_text` is of the register's word as it stands in the row, 0 where there is no end.
fn print_end_step(end: u32, out: &mut [u8], at: usize) -> usize
    requires { at + marked_most ≤ length out.old }
    ensures { Printed out.old at (end_text end) result out.new × (result ≤ at + marked_most) }
{
    if end == 0 {
        return number_text::print_bytes(b" -", out, at);
    }
    number_text::print_spaced(end, out, at)
}

// The register's line of a WRITE; an end of 0 is none.
pub fn print_write_record(
    tag: u32,
    client: u32,
    count: u32,
    begin: u32,
    end: u32,
    badge: u32,
    out: &mut [u8],
    at: usize,
) -> usize
    requires { at + record_most ≤ length out.old }
    ensures { Printed out.old at (write_text tag client count begin end badge) result out.new
        × (result ≤ at + record_most) }
{
    let numbers = [tag, client, count, begin];
    let behind = print_lettered(b'W', &numbers, out, at);
    let next = print_end_step(end, out, behind);
    let last = number_text::print_spaced(badge, out, next);
    number_text::put_byte(b'\n', out, last)
}

// The register's line of a READ.
pub fn print_read_record(
    tag: u32,
    client: u32,
    begin: u32,
    end: u32,
    overlap: u32,
    out: &mut [u8],
    at: usize,
) -> usize
    requires { at + record_most ≤ length out.old }
    ensures { Printed out.old at (read_text tag client begin end overlap) result out.new × (result ≤ at + record_most) }
{
    let numbers = [tag, client, begin, end, overlap];
    print_row(b'R', &numbers, out, at)
}
