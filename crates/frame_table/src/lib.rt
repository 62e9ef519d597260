// The constant table by kind: the one source of the format.
#![tactic(auto)]

ghost use Rattle.std.specs.Prelude.{◌≡◌, ◌+◌, ◌<◌, ◌≤◌, cond, eqb};
ghost use Rattle.frame_table.specs.Table.{server, coord, sorts, less, header_bits, limits_of, most_entries};
ghost use Rattle.frame_table.specs.Table.{shape_of, fields, row_with, row_of, least_of, most_of, has_badges};
ghost use Rattle.frame_table.specs.Columns.{length_by};
ghost use Rattle.frame_table.specs.Entry.{behind_by};

// What a field holds. NO: the kind has no such field; it then has no bits and the value 0.
// Kept: `row_of` promises a row of these numbers, `limits_of` takes one, and Table's `sort_at` and `bits_of` and the theorems above go by them.
pub const NO: u8 = 0;

const KIND: u8 = 1;

const CLIENT: u8 = 2;

const SERVER: u8 = 3;

const COORD: u8 = 4;

const TAG: u8 = 5;

const TAG1: u8 = 6; // a tag from 1

const COUNT: u8 = 7;

const COUNT1: u8 = 8; // a count from 1

const OF: u8 = 9; // the client of a key

const OWN: u8 = 10; // the client of a key, which is the frame's own

const BADGE: u8 = 11; // a badge

const VALUE: u8 = 12; // a setpoint

const MASK: u8 = 13;

const KEYS: u8 = 14; // how many keys

const LESS: u8 = 15; // how many entries, less 1

// How the table is laid out: these numbers stand here only. A row's places, from 0: the field that says how many entries there are,
// an entry's first field, which is its key's count, its key's client, its badge, and its last, which is its tag, setpoint or mask; and how
// many places a row has.
pub const MANY: usize = 8;

pub const ENTRY: usize = 9;

pub const OWNER: usize = 10;

pub const ENTRY_BADGE: usize = 11;

pub const NUMBER: usize = 12;

pub const PLACES: usize = 13;

// How many fields the header and the fixed body have together, and an entry.
pub const FIXED_FIELDS: usize = ENTRY;

pub const ENTRY_FIELDS: usize = 4;

// How many kinds there are, with 0, the last of them, and the bits of the header.
const KINDS: usize = 13;

pub const LAST_KIND: u32 = 12;

const HEADER_BITS: usize = 13;

// The bits of the first field, which is the kind, of a key's count and client, of both, of a mask, and of a badge.
pub const KIND_BITS: usize = 4;

const COUNT_BITS: usize = 8;

const OWNER_BITS: usize = 4;

pub const KEY_BITS: usize = COUNT_BITS + OWNER_BITS;

pub const MASK_BITS: usize = 16;

pub const BADGE_BITS: usize = 16;

// The table by kind, from 0: station or head target, fixed body bits, bits per entry.
// A constant array is built on the stack where it is used, so it is small and looked at once for a frame.
// Kept: that the table is a constant by kind is a rule of the project (docs/SPECIFICATION.md, "Language form for each place").
const BY_KIND: [[u8; 3]; KINDS] = [
    [SERVER, 0, 0], // until the kind is read
    [SERVER, 60, 0], // 1 set
    [SERVER, 0, 0], // 2 set done
    [COORD, 28, 0], // 3 enter
    [COORD, 8, 0], // 4 entered
    [COORD, 0, 0], // 5 which keys
    [COORD, 13, 20], // 6 keys
    [SERVER, 12, 0], // 7 get
    [SERVER, 48, 0], // 8 got
    [SERVER, 0, 0], // 9 get all
    [SERVER, 8, 60], // 10 all
    [COORD, 0, 0], // 11 get log
    [COORD, 8, 28], // 12 log
];

// A row of it.
#[derive(Clone, Copy)]
pub struct Shape {
    pub target: u8,
    pub body: u8,
    pub entry: u8,
}

fn columns(target: u8, body: u8, entry: u8) -> Shape
    ensures { result ≡ record { target = target; body = body; entry = entry } }
{
    Shape {
        target,
        body,
        entry,
    }
}

// The row of a kind; where there is no such kind, a row of nothing.
pub fn shape_of(kind: u32) -> Shape
    ensures { result ≡ shape_of kind }
{
    let row = kind as usize;
    if KINDS <= row {
        return columns(NO, 0, 0);
    }
    let cells = BY_KIND[row];
    columns(cells[0], cells[1], cells[2])
}

// The target of a kind as one of the two sorts that it can be, so that the compiled code of each knows how wide it is.
pub fn target_of(shape: Shape) -> u8
    requires { (shape.target ≡ coord → ⊥) → shape.target ≡ server }
    ensures { result ≡ shape.target }
{
    if shape.target == COORD {
        return COORD;
    }
    SERVER
}

// What the fields of a frame hold, place by place: kind, client, and target, which is the table's; of the fixed body tag, key's count and
// client, badge, setpoint or mask, how many entries; of each entry key's count and client, badge, and tag, setpoint or mask.
fn row(
    target: u8,
    tag: u8,
    count: u8,
    owner: u8,
    badge: u8,
    number: u8,
    many: u8,
    counts: u8,
    owners: u8,
    badges: u8,
    numbers: u8,
) -> [u8; PLACES]
    ensures { result ≡ row_with target (fields tag count owner badge number many counts owners badges numbers) }
{
    [
        KIND, CLIENT, target, tag, count, owner, badge, number, many, counts, owners, badges,
        numbers,
    ]
}

// Beside the table, which fields make up the bits that it gives. Where there is no such kind, no field follows the header.
// It is a `match` since a constant array of so many rows would be built on the stack anew for each frame.
pub fn row_of(kind: u32, target: u8) -> [u8; PLACES]
    requires { target ≡ (shape_of kind).target }
    ensures { result ≡ row_of kind }
{
    match kind {
        1 => row(target, NO, COUNT1, OWN, BADGE, VALUE, NO, NO, NO, NO, NO),
        2 => row(target, NO, NO, NO, NO, NO, NO, NO, NO, NO, NO),
        3 => row(target, NO, COUNT1, OWN, NO, MASK, NO, NO, NO, NO, NO),
        4 => row(target, TAG1, NO, NO, NO, NO, NO, NO, NO, NO, NO),
        5 => row(target, NO, NO, NO, NO, NO, NO, NO, NO, NO, NO),
        6 => row(target, TAG, NO, NO, NO, NO, KEYS, COUNT, OF, NO, TAG),
        7 => row(target, NO, COUNT, OF, NO, NO, NO, NO, NO, NO, NO),
        8 => row(target, NO, NO, NO, BADGE, VALUE, NO, NO, NO, NO, NO),
        9 => row(target, NO, NO, NO, NO, NO, NO, NO, NO, NO, NO),
        10 => row(target, NO, NO, NO, NO, NO, LESS, COUNT, OF, BADGE, VALUE),
        11 => row(target, NO, NO, NO, NO, NO, NO, NO, NO, NO, NO),
        12 => row(target, NO, NO, NO, NO, NO, LESS, COUNT, OF, NO, MASK),
        _ => row(target, NO, NO, NO, NO, NO, NO, NO, NO, NO, NO),
    }
}

// A field: its bits, and the least and the greatest value that it may have.
#[derive(Clone, Copy)]
pub struct Field {
    pub width: usize,
    pub least: u32,
    pub most: u32,
}

// A row of the table of sorts.
fn limits(width: usize, least: u32, most: u32) -> Field
    ensures { result ≡ record { width = width; least = least; most = most } }
{
    Field { width, least, most }
}

// The table of sorts: by what a field holds its bits, its least value, its greatest; the last row is of LESS.
// It is a `match` since a constant array is built where it stands, on the stack and anew for each field.
pub fn limits_of(sort: u8) -> Field
    requires { sort < sorts }
    ensures { result ≡ limits_of sort }
{
    match sort {
        NO => limits(0, 0, 0),
        KIND => limits(KIND_BITS, 1, 12),
        CLIENT => limits(4, 0, 15),
        SERVER => limits(5, 0, 15),
        COORD => limits(5, 16, 16),
        TAG => limits(8, 0, 255),
        TAG1 => limits(8, 1, 255),
        COUNT => limits(8, 0, 255),
        COUNT1 => limits(8, 1, 255),
        OF => limits(4, 0, 15),
        OWN => limits(4, 0, 15),
        BADGE => limits(BADGE_BITS, 0, 65535),
        VALUE => limits(32, 0, 4294967295),
        MASK => limits(MASK_BITS, 1, 65535),
        KEYS => limits(5, 1, 16),
        _ => limits(8, 0, 255),
    }
}

// The least value of a field in a frame of a client, from the one that stands in the table of sorts.
pub fn least_of(sort: u8, plain: u32, client: u32) -> u32
    requires { plain ≡ (limits_of sort).least }
    ensures { result ≡ least_of sort client }
{
    if sort == OWN {
        return client;
    }
    plain
}

// The greatest value of a field in a frame of a client, where `before` is the value of the field before it.
pub fn most_of(sort: u8, plain: u32, client: u32, before: u32) -> u32
    requires { plain ≡ (limits_of sort).most }
    ensures { result ≡ most_of sort client before }
{
    if sort == OWN {
        return client;
    }
    if sort != OF {
        return plain;
    }
    if before == 0 {
        return 0;
    }
    plain
}

// How many entries a frame has, by the value that says it and what the field of that value holds.
pub fn entries_in(sort: u8, value: u32) -> usize
    ensures { result ≡ cond (eqb sort less) (value + 1) value }
{
    if sort == LESS {
        return value as usize + 1;
    }
    value as usize
}

// Whether the entries of this kind have a badge behind the key.
pub fn has_badges(kind: u32) -> bool
    ensures { result ≡ has_badges kind }
{
    let shape = shape_of(kind);
    let row = row_of(kind, shape.target);
    row[ENTRY_BADGE] != NO
}

// What stands behind the key of an entry: the bits of its badge, none where the kind's entries lack one, the bits of its number, and the
// number's least value.
#[derive(Clone, Copy)]
pub struct Behind {
    pub badge: usize,
    pub width: usize,
    pub least: u32,
}

// By what the badge and the number hold.
pub fn behind_key(badge: u8, number: u8) -> Behind
    requires { (badge < sorts) × (number < sorts) }
    ensures { result ≡ behind_by badge number }
{
    let badges = limits_of(badge);
    let numbers = limits_of(number);
    Behind {
        badge: badges.width,
        width: numbers.width,
        least: numbers.least,
    }
}

// As many entries as a frame can have.
pub const MOST_ENTRIES: usize = 256;

// How many bytes a frame of a kind of this shape has, with its padding.
pub fn frame_length(shape: Shape, entries: usize) -> usize
    requires { entries ≤ most_entries }
    ensures { result ≡ length_by shape entries }
{
    (HEADER_BITS + shape.body as usize + entries * shape.entry as usize + 7) / 8
}

// The bit where the entries of a kind of this shape begin.
pub fn entries_at(shape: Shape) -> usize
    ensures { result ≡ header_bits + shape.body }
{
    HEADER_BITS + shape.body as usize
}
