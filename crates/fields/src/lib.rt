// A field of up to 32 bits at any place of a row of bits, which bytes hold most significant bit first, taken by whole bytes: a part of a
// byte first and last. Callers reach bits by `read_field` and `write_field` alone; `field_by_bytes` and `put_by_bytes` turn what these
// promise into `field_at` and `put_field`, bit by bit. They prove that the field is narrow enough and inside, so that no byte is tested for.
#![tactic(auto)]

ghost use Rattle.std.specs.Prelude.{◌≡◌, ◌+◌, ◌-◌, ◌^◌, ◌≤◌, ◌<◌, length};
ghost use Rattle.fields.specs.Parts.{part_at, with_part, put_part, up_to, put_up_to, field_by_bytes, put_by_bytes};
ghost use Rattle.fields.specs.Asked.{Inside, InByte, Across};

// 2 to the k; not 0, so that one can divide by it.
fn power(k: usize) -> u32
    requires { k < 32 }
    ensures { (result ≡ 2 ^ k) × (0 < result) }
{
    1 << k
}

// A part of the byte at `place`: `width` bits with `behind` bits of the byte behind them; a part of no bits is in no byte.
fn part_at(bytes: &[u8], place: usize, width: usize, behind: usize) -> u32
    requires { InByte bytes.now place width behind }
    ensures { result ≡ part_at bytes.now place width behind }
{
    if width == 0 {
        return 0;
    }
    let byte = bytes[place] as u32;
    (byte % power(width + behind)) >> behind
}

// A byte with the lowest bits of `value` in such a part.
fn with_part(byte: u8, width: usize, behind: usize, value: u32) -> u8
    requires { width + behind ≤ 8 }
    ensures { result ≡ with_part byte width behind value }
{
    let old = byte as u32;
    // What the last bit before the part is worth, and the last bit of the part.
    let above = power(width + behind);
    let unit = power(behind);
    (old / above * above + value % power(width) * unit + old % unit) as u8
}

// The bytes with that byte at `place`; a part of no bits touches none.
fn put_part(bytes: &mut [u8], place: usize, width: usize, behind: usize, value: u32)
    requires { InByte bytes.old place width behind }
    ensures { bytes.new ≡ put_part bytes.old place width behind value }
{
    if width == 0 {
        return;
    }
    let byte = bytes[place];
    bytes[place] = with_part(byte, width, behind, value);
}

// Kept: `part_at` and `put_part` alone, in place of what follows for first part, whole byte and last part, miss the bar of frames (kind 12 read, 16 entries: 3,310 instructions for 2,843).
// The first part of a field, its byte's last `free` bits.
fn first_part(bytes: &[u8], place: usize, free: usize) -> u32
    requires { (free ≤ 8) × (place < length bytes.now) }
    ensures { result ≡ part_at bytes.now place free 0 }
{
    let byte = bytes[place] as u32;
    byte % power(free)
}

// A whole byte.
fn byte_at(bytes: &[u8], place: usize) -> u32
    requires { place < length bytes.now }
    ensures { result ≡ part_at bytes.now place 8 0 }
{
    bytes[place] as u32
}

// The last part, its byte's first `left` bits.
fn last_part(bytes: &[u8], place: usize, left: usize) -> u32
    requires { (left ≤ 8) × (place < length bytes.now) }
    ensures { result ≡ part_at bytes.now place left (8 - left) }
{
    let byte = bytes[place] as u32;
    byte >> (8 - left)
}

// The first part of a field and the n whole bytes behind it.
fn up_to(bytes: &[u8], place: usize, free: usize, n: usize) -> u32
    requires { Across bytes.now place free n }
    ensures { result ≡ up_to bytes.now place free n }
{
    let mut value = first_part(bytes, place, free);
    for i in 0..n {
        value = value * 256 + byte_at(bytes, place + i + 1);
    }
    value
}

// The number in the `width` bits from `at` on: within a byte; or the first part, the whole bytes, the last part.
fn by_bytes(bytes: &[u8], at: usize, width: usize) -> u32
    requires { Inside bytes.now at width }
    ensures { result ≡ field_by_bytes bytes.now at width }
{
    let place = at / 8;
    let free = 8 - at % 8;
    if width <= free {
        return part_at(bytes, place, width, free - width);
    }
    let rest = width - free - 1;
    let whole = rest / 8;
    let left = rest % 8 + 1;
    (up_to(bytes, place, free, whole) << left) + last_part(bytes, place + whole + 1, left)
}

// A byte with `value` in its last `free` bits, in all of them, in its first `left` bits.
fn with_first(byte: u8, free: usize, value: u32) -> u8
    requires { free ≤ 8 }
    ensures { result ≡ with_part byte free 0 value }
{
    let unit = power(free);
    let old = byte as u32;
    (old / unit * unit + value % unit) as u8
}

fn with_all(byte: u8, value: u32) -> u8
    ensures { result ≡ with_part byte 8 0 value }
{
    (value % 256) as u8
}

fn with_last(byte: u8, left: usize, value: u32) -> u8
    requires { left ≤ 8 }
    ensures { result ≡ with_part byte left (8 - left) value }
{
    let unit = power(8 - left);
    let old = byte as u32;
    (value % power(left) * unit + old % unit) as u8
}

// The first part, a whole byte, the last part of a field, with the lowest bits of `value`.
fn put_first(bytes: &mut [u8], place: usize, free: usize, value: u32)
    requires { (free ≤ 8) × (place < length bytes.old) }
    ensures { bytes.new ≡ put_part bytes.old place free 0 value }
{
    let byte = bytes[place];
    bytes[place] = with_first(byte, free, value);
}

fn put_byte(bytes: &mut [u8], place: usize, value: u32)
    requires { place < length bytes.old }
    ensures { bytes.new ≡ put_part bytes.old place 8 0 value }
{
    let byte = bytes[place];
    bytes[place] = with_all(byte, value);
}

fn put_last(bytes: &mut [u8], place: usize, left: usize, value: u32)
    requires { (left ≤ 8) × (place < length bytes.old) }
    ensures { bytes.new ≡ put_part bytes.old place left (8 - left) value }
{
    let byte = bytes[place];
    bytes[place] = with_last(byte, left, value);
}

// `value` into the first part and the n whole bytes behind it: its lowest bits into the last of these bytes.
fn put_up_to(bytes: &mut [u8], place: usize, free: usize, n: usize, value: u32)
    requires { Across bytes.old place free n }
    ensures { bytes.new ≡ put_up_to bytes.old place free n value }
{
    let mut rest = value;
    for i in (0..n).rev() {
        put_byte(bytes, place + i + 1, rest);
        rest /= 256;
    }
    put_first(bytes, place, free, rest);
}

// The bytes with the lowest bits of `value` in the `width` bits from `at` on: the last part takes the lowest of them.
fn put_by_bytes(bytes: &mut [u8], at: usize, width: usize, value: u32)
    requires { Inside bytes.old at width }
    ensures { bytes.new ≡ put_by_bytes bytes.old at width value }
{
    let place = at / 8;
    let free = 8 - at % 8;
    if width <= free {
        put_part(bytes, place, width, free - width, value);
        return;
    }
    let rest = width - free - 1;
    let whole = rest / 8;
    let left = rest % 8 + 1;
    put_last(bytes, place + whole + 1, left, value);
    put_up_to(bytes, place, free, whole, value >> left);
}

// The number in the `width` bits from `at` on. Each width that frames have stands as a number, so that each has compiled code of its own.
pub fn read_field(bytes: &[u8], at: usize, width: usize) -> u32
    requires { Inside bytes.now at width }
    ensures { result ≡ field_by_bytes bytes.now at width }
{
    match width {
        4 => by_bytes(bytes, at, 4),
        5 => by_bytes(bytes, at, 5),
        8 => by_bytes(bytes, at, 8),
        12 => by_bytes(bytes, at, 12),
        16 => by_bytes(bytes, at, 16),
        32 => by_bytes(bytes, at, 32),
        _ => by_bytes(bytes, at, width),
    }
}

// The bytes with the lowest bits of `value` in the `width` bits from `at` on; each width as where it is read.
pub fn write_field(bytes: &mut [u8], at: usize, width: usize, value: u32)
    requires { Inside bytes.old at width }
    ensures { bytes.new ≡ put_by_bytes bytes.old at width value }
{
    match width {
        4 => put_by_bytes(bytes, at, 4, value),
        5 => put_by_bytes(bytes, at, 5, value),
        8 => put_by_bytes(bytes, at, 8, value),
        16 => put_by_bytes(bytes, at, 16, value),
        32 => put_by_bytes(bytes, at, 32, value),
        _ => put_by_bytes(bytes, at, width, value),
    }
}
