// Frames: the messages that cross the wire, from bytes and to bytes.
// A message holds what is fixed; the entries of kinds 6, 10 and 12 stand beside it, in three lent slices: keys, as numbers, badges, which
// only kind 10 has, and the numbers beside them: tags of kind 6, setpoints of kind 10, masks of kind 12.
#![tactic(auto)]

ghost use Rattle.std.specs.Prelude.{◌≡◌, ◌-◌};
ghost use Rattle.formats.specs.Entries.{values_by};
ghost use Rattle.frame_table.specs.Columns.{Packable};
ghost use Rattle.formats.specs.Reading.{Got};
ghost use Rattle.format_writing.specs.Writing.{wrote_of, bytes_after};
ghost use Rattle.frames.specs.Frames.{reading_of, keys_read, badges_read, numbers_read, found, written_of, bytes_written};
ghost use Rattle.frames.specs.Answers.{written_by};
ghost use Rattle.frames.specs.Results.{reading_by, length_by};
ghost use Rattle.frames.specs.Messages.{entries_of, fixed_of, message_at};
ghost use Rattle.frames.specs.MessageLaws.{Narrow, fixed_by, message_by};

use causes::Refusal;
use frame_table::{ENTRY_FIELDS, FIXED_FIELDS, MOST_ENTRIES};
use keys::Key;

// A message by its kind, 1 to 12: set, set done, enter, entered, which keys, keys, get, got, get all, all, get log, log.
// `entries` is how many entries stand beside it.
#[derive(Clone, Copy)]
pub enum Message {
    Set {
        client: u8,
        server: u8,
        key: Key,
        badge: u16,
        setpoint: u32,
    },
    SetDone {
        client: u8,
        server: u8,
    },
    Enter {
        client: u8,
        key: Key,
        mask: u32,
    },
    Entered {
        client: u8,
        tag: u8,
    },
    WhichKeys {
        client: u8,
    },
    Keys {
        client: u8,
        tag: u8,
        entries: u32,
    },
    Get {
        client: u8,
        server: u8,
        key: Key,
    },
    Got {
        client: u8,
        server: u8,
        badge: u16,
        setpoint: u32,
    },
    GetAll {
        client: u8,
        server: u8,
    },
    All {
        client: u8,
        server: u8,
        entries: u32,
    },
    GetLog {
        client: u8,
    },
    Log {
        client: u8,
        entries: u32,
    },
}

// How many entries stand beside a message.
pub fn entries_of(message: Message) -> u32
    ensures { result ≡ entries_of message }
{
    match message {
        Message::Set { .. } => 0,
        Message::SetDone { .. } => 0,
        Message::Enter { .. } => 0,
        Message::Entered { .. } => 0,
        Message::WhichKeys { .. } => 0,
        Message::Keys { entries, .. } => entries,
        Message::Get { .. } => 0,
        Message::Got { .. } => 0,
        Message::GetAll { .. } => 0,
        Message::All { entries, .. } => entries,
        Message::GetLog { .. } => 0,
        Message::Log { entries, .. } => entries,
    }
}

fn less_one(entries: u32) -> u32
    ensures { result ≡ entries - 1 }
{
    if entries == 0 {
        return 0;
    }
    entries - 1
}

// The values of a message's header and fixed body, in the order of the table; what its kind lacks is 0.
// Kept: `let fixed: [u32; FIXED_FIELDS] = message.into()` would not say that the order is the table's, and is no shorter.
fn fixed_of(message: Message) -> [u32; FIXED_FIELDS]
    ensures { result ≡ fixed_of message }
{
    match message {
        Message::Set {
            client,
            server,
            key,
            badge,
            setpoint,
        } => [
            1,
            client as u32,
            server as u32,
            0,
            key.count as u32,
            key.client as u32,
            badge as u32,
            setpoint,
            0,
        ],
        Message::SetDone { client, server } => [2, client as u32, server as u32, 0, 0, 0, 0, 0, 0],
        Message::Enter { client, key, mask } => [
            3,
            client as u32,
            16,
            0,
            key.count as u32,
            key.client as u32,
            0,
            mask,
            0,
        ],
        Message::Entered { client, tag } => [4, client as u32, 16, tag as u32, 0, 0, 0, 0, 0],
        Message::WhichKeys { client } => [5, client as u32, 16, 0, 0, 0, 0, 0, 0],
        Message::Keys {
            client,
            tag,
            entries,
        } => [6, client as u32, 16, tag as u32, 0, 0, 0, 0, entries],
        Message::Get {
            client,
            server,
            key,
        } => [
            7,
            client as u32,
            server as u32,
            0,
            key.count as u32,
            key.client as u32,
            0,
            0,
            0,
        ],
        Message::Got {
            client,
            server,
            badge,
            setpoint,
        } => [
            8,
            client as u32,
            server as u32,
            0,
            0,
            0,
            badge as u32,
            setpoint,
            0,
        ],
        Message::GetAll { client, server } => [9, client as u32, server as u32, 0, 0, 0, 0, 0, 0],
        Message::All {
            client,
            server,
            entries,
        } => [
            10,
            client as u32,
            server as u32,
            0,
            0,
            0,
            0,
            0,
            less_one(entries),
        ],
        Message::GetLog { client } => [11, client as u32, 16, 0, 0, 0, 0, 0, 0],
        Message::Log { client, entries } => [
            12,
            client as u32,
            16,
            0,
            0,
            0,
            0,
            0,
            less_one(entries),
        ],
    }
}

// What is fixed in a message, whatever its kind: its setpoint or mask is the number.
#[derive(Clone, Copy)]
pub struct Fixed {
    pub client: u8,
    pub server: u8,
    pub tag: u8,
    pub key: Key,
    pub badge: u16,
    pub number: u32,
    pub entries: u32,
}

// What a frame's fixed values hold, and its number of entries: four of all its values are an entry's.
fn fixed_at(fixed: &[u32; FIXED_FIELDS], fields: usize) -> Fixed
    requires { Narrow fixed.now fields }
    ensures { result ≡ fixed_by fixed.now fields }
{
    let client = fixed[1] as u8;
    let server = fixed[2] as u8;
    let tag = fixed[3] as u8;
    let key = Key::new(fixed[4] as u8, fixed[5] as u8);
    let badge = fixed[6] as u16;
    let entries = ((fields - FIXED_FIELDS) / ENTRY_FIELDS) as u32;
    Fixed {
        client,
        server,
        tag,
        key,
        badge,
        number: fixed[7],
        entries,
    }
}

// The message of a kind; what is none of the first eleven is a log.
// Kept: it promises a message for every number as the kind, and so cannot fail as a `TryFrom<(u32, Fixed)>` would.
pub fn message_at(kind: u32, fixed: Fixed) -> Message
    ensures { result ≡ message_at kind fixed }
{
    let client = fixed.client;
    let server = fixed.server;
    let tag = fixed.tag;
    let key = fixed.key;
    let badge = fixed.badge;
    let number = fixed.number;
    let entries = fixed.entries;
    match kind {
        1 => Message::Set {
            client,
            server,
            key,
            badge,
            setpoint: number,
        },
        2 => Message::SetDone { client, server },
        3 => Message::Enter {
            client,
            key,
            mask: number,
        },
        4 => Message::Entered { client, tag },
        5 => Message::WhichKeys { client },
        6 => Message::Keys {
            client,
            tag,
            entries,
        },
        7 => Message::Get {
            client,
            server,
            key,
        },
        8 => Message::Got {
            client,
            server,
            badge,
            setpoint: number,
        },
        9 => Message::GetAll { client, server },
        10 => Message::All {
            client,
            server,
            entries,
        },
        11 => Message::GetLog { client },
        _ => Message::Log { client, entries },
    }
}

fn message_of(fixed: &[u32; FIXED_FIELDS], fields: usize) -> Message
    requires { Narrow fixed.now fields }
    ensures { result ≡ message_by fixed.now fields }
{
    let parts = fixed_at(fixed, fields);
    message_at(fixed[0], parts)
}

// The message of a frame that was found good, its entries stored; 12 where a lent slice has too few places for them.
fn deliver(
    bytes: &[u8],
    fixed: &[u32; FIXED_FIELDS],
    fields: usize,
    keys: &mut [u32],
    badges: &mut [u32],
    numbers: &mut [u32],
) -> Result<Message, Refusal>
    requires { Got (found bytes.now) fields fixed.now }
    ensures { (reading_by result ≡ reading_of (found bytes.now) keys.old badges.old numbers.old)
        × (keys.new ≡ keys_read (found bytes.now) keys.old badges.old numbers.old)
        × (badges.new ≡ badges_read (found bytes.now) keys.old badges.old numbers.old)
        × (numbers.new
        ≡ numbers_read (found bytes.now) keys.old badges.old numbers.old) }
{
    let message = message_of(fixed, fields);
    let entries = entries_of(message) as usize;
    if entries == 0 {
        return Ok(message);
    }
    let kind = fixed[0];
    if !frame_entries::enough_places(kind, entries, keys.len(), badges.len(), numbers.len()) {
        return Err(Refusal::NoRoom);
    }
    frame_entries::store(kind, bytes, keys, badges, numbers, entries);
    Ok(message)
}

// Reads a frame: the message, and its entries at the front of the three lent slices; that of badges is left alone by kinds that have none.
// The bytes may be any. Refused by 10, 11 or 12, and then the slices are as before.
pub fn read_frame(
    bytes: &[u8],
    keys: &mut [u32],
    badges: &mut [u32],
    numbers: &mut [u32],
) -> Result<Message, Refusal>
    ensures { (reading_by result ≡ reading_of (found bytes.now) keys.old badges.old numbers.old)
        × (keys.new ≡ keys_read (found bytes.now) keys.old badges.old numbers.old)
        × (badges.new ≡ badges_read (found bytes.now) keys.old badges.old numbers.old)
        × (numbers.new
        ≡ numbers_read (found bytes.now) keys.old badges.old numbers.old) }
{
    let scan = format_reading::scan_frame(bytes)?;
    deliver(bytes, &scan.fixed, scan.fields, keys, badges, numbers)
}

// The frame of a message whose entries are there. It stands by itself, so that the writer is compiled once for the two ways that lead here.
fn send(
    fixed: &[u32; FIXED_FIELDS],
    keys: &[u32],
    badges: &[u32],
    numbers: &[u32],
    entries: usize,
    bytes: &mut [u8],
) -> Result<usize, Refusal>
    requires { Packable fixed.now keys.now badges.now numbers.now entries }
    ensures { (length_by result
        ≡ written_by (wrote_of (values_by fixed.now keys.now badges.now numbers.now entries)
        bytes.old))
        × (bytes.new
        ≡ bytes_after (values_by fixed.now keys.now badges.now numbers.now entries)
        bytes.old) }
{
    format_writing::write_values(fixed, keys, badges, numbers, entries, bytes)
}

// Writes a message with its entries, the first of the three slices: the frame stands at the front of the lent bytes.
// Refused by 11, then 12, and then the bytes are as before.
pub fn write_frame(
    message: Message,
    keys: &[u32],
    badges: &[u32],
    numbers: &[u32],
    bytes: &mut [u8],
) -> Result<usize, Refusal>
    ensures { (length_by result ≡ written_of message keys.now badges.now numbers.now bytes.old)
        × (bytes.new
        ≡ bytes_written message keys.now badges.now numbers.now bytes.old) }
{
    let entries = entries_of(message) as usize;
    let fixed = fixed_of(message);
    // No entries need no places.
    if entries == 0 {
        return send(&fixed, keys, badges, numbers, entries, bytes);
    }
    let kind = fixed[0];
    if !frame_entries::enough_places(kind, entries, keys.len(), badges.len(), numbers.len()) {
        return Err(Refusal::Malformed);
    }
    if MOST_ENTRIES < entries {
        return Err(Refusal::Malformed);
    }
    send(&fixed, keys, badges, numbers, entries, bytes)
}
