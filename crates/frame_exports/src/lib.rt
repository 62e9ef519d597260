// What other languages call: the reader and the writer of frames, on numbers and slices.
// A message crosses as two numbers, its head (kind, client, server, tag, key, badge) and its tail (how many entries, setpoint or mask), a
// refusal as 2^64 - 1 less its number.
#![tactic(auto)]

ghost use Rattle.std.specs.Prelude.{◌≡◌, ◌-◌};
ghost use Rattle.frames.specs.Frames.{reading_of, keys_read, badges_read, numbers_read, found};
ghost use Rattle.causes.specs.Numbers.{number_of};
ghost use Rattle.frames.specs.Results.{reading_by, length_by};
ghost use Rattle.frame_exports.specs.Numbers.{digits_of, pair_of, head_of, tail_of, parts_of, refused_number, written_number};
ghost use Rattle.frame_exports.specs.Writing.{fixed_from, is_kind, frame_answer, frame_left};

use causes::Refusal;
use frames::{Fixed, Message};
use keys::Key;

// A refusal as a number.
fn refused(refusal: Refusal) -> u64
    ensures { result ≡ refused_number (number_of refusal) }
{
    u64::MAX - refusal.number() as u64
}

// The fixed parts of a head, as digits to the base 256, and the badge behind them.
fn digits(kind: u8, client: u8, server: u8, tag: u8, count: u8, owner: u8, badge: u16) -> u64
    ensures { result ≡ digits_of kind client server tag count owner badge }
{
    let target = (kind as u64 * 256 + client as u64) * 256 + server as u64;
    let tagged = (target * 256 + tag as u64) * 256 + count as u64;
    (tagged * 256 + owner as u64) * 65536 + badge as u64
}

fn pair(entries: u32, number: u32) -> u64
    ensures { result ≡ pair_of entries number }
{
    entries as u64 * 4294967296 + number as u64
}

// Kind, client, server, tag, key and badge of a message; what its kind lacks is 0.
fn head_of(message: Message) -> u64
    ensures { result ≡ head_of message }
{
    match message {
        Message::Set {
            client,
            server,
            key,
            badge,
            ..
        } => digits(1, client, server, 0, key.count, key.client, badge),
        Message::SetDone { client, server } => digits(2, client, server, 0, 0, 0, 0),
        Message::Enter { client, key, .. } => digits(3, client, 0, 0, key.count, key.client, 0),
        Message::Entered { client, tag } => digits(4, client, 0, tag, 0, 0, 0),
        Message::WhichKeys { client } => digits(5, client, 0, 0, 0, 0, 0),
        Message::Keys { client, tag, .. } => digits(6, client, 0, tag, 0, 0, 0),
        Message::Get {
            client,
            server,
            key,
        } => digits(7, client, server, 0, key.count, key.client, 0),
        Message::Got {
            client,
            server,
            badge,
            ..
        } => digits(8, client, server, 0, 0, 0, badge),
        Message::GetAll { client, server } => digits(9, client, server, 0, 0, 0, 0),
        Message::All { client, server, .. } => digits(10, client, server, 0, 0, 0, 0),
        Message::GetLog { client } => digits(11, client, 0, 0, 0, 0, 0),
        Message::Log { client, .. } => digits(12, client, 0, 0, 0, 0, 0),
    }
}

// How many entries a message has, and its setpoint or mask.
fn tail_of(message: Message) -> u64
    ensures { result ≡ tail_of message }
{
    match message {
        Message::Set { setpoint, .. } => pair(0, setpoint),
        Message::SetDone { .. } => pair(0, 0),
        Message::Enter { mask, .. } => pair(0, mask),
        Message::Entered { .. } => pair(0, 0),
        Message::WhichKeys { .. } => pair(0, 0),
        Message::Keys { entries, .. } => pair(entries, 0),
        Message::Get { .. } => pair(0, 0),
        Message::Got { setpoint, .. } => pair(0, setpoint),
        Message::GetAll { .. } => pair(0, 0),
        Message::All { entries, .. } => pair(entries, 0),
        Message::GetLog { .. } => pair(0, 0),
        Message::Log { entries, .. } => pair(entries, 0),
    }
}

// A message as it crosses; where it is refused, both are the refusal.
#[repr(C)]
#[derive(Clone, Copy)]
pub struct Parts {
    pub head: u64,
    pub tail: u64,
}

fn both_parts(head: u64, tail: u64) -> Parts
    ensures { result ≡ record { head = head; tail = tail } }
{
    Parts { head, tail }
}

fn parts_of(reading: Result<Message, Refusal>) -> Parts
    ensures { result ≡ parts_of (reading_by reading) }
{
    match reading {
        Ok(message) => both_parts(head_of(message), tail_of(message)),
        Err(refusal) => both_parts(refused(refusal), refused(refusal)),
    }
}

fn written_number(written: Result<usize, Refusal>) -> u64
    ensures { result ≡ written_number (length_by written) }
{
    match written {
        Ok(length) => length as u64,
        Err(refusal) => refused(refusal),
    }
}

// Reads a frame: its message, and the entries at the front of the three lent slices.
#[unsafe(no_mangle)]
pub extern "C" fn frame_read(
    bytes: &[u8],
    keys: &mut [u32],
    badges: &mut [u32],
    numbers: &mut [u32],
) -> Parts
    ensures { (result ≡ parts_of (reading_of (found bytes.now) keys.old badges.old numbers.old))
        × (keys.new ≡ keys_read (found bytes.now) keys.old badges.old numbers.old)
        × (badges.new ≡ badges_read (found bytes.now) keys.old badges.old numbers.old)
        × (numbers.new
        ≡ numbers_read (found bytes.now) keys.old badges.old numbers.old) }
{
    let reading = frames::read_frame(bytes, keys, badges, numbers);
    parts_of(reading)
}

// What is fixed in a message, from its numbers.
fn fixed_from(
    client: u8,
    server: u8,
    tag: u8,
    count: u8,
    owner: u8,
    badge: u16,
    number: u32,
    entries: u32,
) -> Fixed
    ensures { result ≡ fixed_from client server tag count owner badge number entries }
{
    let key = Key::new(count, owner);
    Fixed {
        client,
        server,
        tag,
        key,
        badge,
        number,
        entries,
    }
}

// Whether a number is a kind of message.
fn is_kind(kind: u32) -> bool
    ensures { result ≡ is_kind kind }
{
    if kind == 0 {
        return false;
    }
    kind <= 12
}

// Writes the message of these numbers: its length, or a refusal. A number that is no kind names no message, and gives 11.
#[unsafe(no_mangle)]
pub extern "C" fn frame_write(
    kind: u32,
    client: u8,
    server: u8,
    tag: u8,
    count: u8,
    owner: u8,
    badge: u16,
    number: u32,
    entries: u32,
    keys: &[u32],
    badges: &[u32],
    numbers: &[u32],
    bytes: &mut [u8],
) -> u64
    ensures { (result
        ≡ frame_answer kind (fixed_from client server tag count owner badge number entries) keys.now badges.now
        numbers.now bytes.old)
        × (bytes.new
        ≡ frame_left kind (fixed_from client server tag count owner badge number entries) keys.now badges.now
        numbers.now bytes.old) }
{
    if !is_kind(kind) {
        return refused(Refusal::Malformed);
    }
    let fixed = fixed_from(client, server, tag, count, owner, badge, number, entries);
    let message = frames::message_at(kind, fixed);
    let written = frames::write_frame(message, keys, badges, numbers, bytes);
    written_number(written)
}
