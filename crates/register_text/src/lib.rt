// The register in print: the rows that listing lays, line by line.
#![tactic(auto)]

ghost use Rattle.std.specs.Prelude.{◌+◌, ◌*◌, ◌≤◌, ◌<◌, length};
ghost use Rattle.tables.specs.Lent.{tables_lent};
ghost use Rattle.soundness.specs.Facts.{Sound};
ghost use Rattle.printing.specs.Printed.{Printed};
ghost use Rattle.printing.specs.Sizes.{record_most};
ghost use Rattle.listing.specs.Register.{line_width, most_lines};
ghost use Rattle.register_text.specs.Text.{row_text, rows_text, register_text, register_most};

use listing::WIDTH;
use tables::lent::Lent;

// How many words listing needs at most.
const LIST: usize = WIDTH * listing::ROWS;

// The bytes of the longest register: of each line a letter, six numbers of ten digits, each behind a space, and byte 10.
pub const MOST: usize = (1 + 6 * (1 + 10) + 1) * listing::ROWS;

// The line of a row: kind, tag, client, count or mask, begin, end, overlap, badge.
fn print_row(row: &[u32], out: &mut [u8], at: usize) -> usize
    requires { (line_width ≤ length row.now) × (at + record_most ≤ length out.old) }
    ensures { Printed out.old at (row_text row.now) result out.new × (result ≤ at + record_most) }
{
    if row[0] == 0 {
        return record_text::print_write_record(
            row[1], row[2], row[3], row[4], row[5], row[7], out, at,
        );
    }
    record_text::print_read_record(row[1], row[2], row[4], row[5], row[6], out, at)
}

// The lines of the first rows of a list.
fn print_rows(list: &[u32], rows: usize, out: &mut [u8], at: usize) -> usize
    requires rows_in_bounds { (line_width * rows ≤ length list.now) × (at + record_most * rows ≤ length out.old) }
    requires rows_le_most_lines { rows ≤ most_lines }
    ensures { Printed out.old at (rows_text list.now rows) result out.new × (result ≤ at + record_most * rows) }
{
    let mut next = at;
    for i in 0..rows {
        let row = &list[WIDTH * i..WIDTH * i + WIDTH];
        next = print_row(row, out, next);
    }
    next
}

// The register of sound tables, printed from a place on; it answers where the print ends.
pub fn print_register(t: &Lent, out: &mut [u8], at: usize) -> usize
    requires sound { Sound (tables_lent t.now) }
    requires register_most_in_bounds { at + register_most ≤ length out.old }
    ensures { Printed out.old at (register_text (tables_lent t.now)) result out.new × (result ≤ at + register_most) }
{
    let mut list = [0u32; LIST];
    match register_listing::list_register_sound(t, &mut list) {
        Ok(rows) => print_rows(&list, rows, out, at),
        Err(_) => at,
    }
}
