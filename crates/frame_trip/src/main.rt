// Writes a frame of every kind, the longest of kinds 6, 10 and 12 among them, reads each back, and cuts each short at every byte.
// A line for each kind: the kind, the frame's length, how many of its proper prefixes give 10, 1 where it is read and written
// again as the same bytes, and the bytes themselves of a frame of up to 44.
#![tactic(auto)]

use causes::Refusal;
use frames::Message;
use keys::Key;
use std::io;

fn print_bytes(rt: &impl Print, bytes: &[u8]) -> io::Result<()> {
    for byte in bytes {
        print!(rt; "{byte:02x}")?;
    }
    Ok(())
}

// A message of each kind; kinds 6, 10 and 12 with as many entries as they can have.
fn sample(kind: u32) -> Message {
    match kind {
        1 => Message::Set {
            client: 2,
            server: 3,
            key: Key::new(1, 2),
            badge: 0,
            setpoint: 1800,
        },
        2 => Message::SetDone {
            client: 15,
            server: 0,
        },
        3 => Message::Enter {
            client: 9,
            key: Key::new(255, 9),
            mask: 32769,
        },
        4 => Message::Entered {
            client: 1,
            tag: 255,
        },
        5 => Message::WhichKeys { client: 7 },
        6 => Message::Keys {
            client: 3,
            tag: 0,
            entries: 16,
        },
        7 => Message::Get {
            client: 4,
            server: 15,
            key: Key::new(0, 0),
        },
        8 => Message::Got {
            client: 5,
            server: 6,
            badge: 7,
            setpoint: 4294967295,
        },
        9 => Message::GetAll {
            client: 0,
            server: 1,
        },
        10 => Message::All {
            client: 8,
            server: 2,
            entries: 256,
        },
        11 => Message::GetLog { client: 14 },
        _ => Message::Log {
            client: 6,
            entries: 256,
        },
    }
}

// Entries: the opening's key, then counts rising, clients in turn; badges from 65,535 down; numbers from 1.
fn fill(keys: &mut [u32; 256], badges: &mut [u32; 256], numbers: &mut [u32; 256]) {
    for i in 0..256 {
        keys[i] = (i * 256 + i % 16) as u32;
        badges[i] = (65535 - i) as u32;
        numbers[i] = (i + 1) as u32;
    }
}

// Whether the bytes give 10.
fn is_cut(bytes: &[u8]) -> bool {
    let mut keys = [0u32; 256];
    let mut badges = [0u32; 256];
    let mut numbers = [0u32; 256];
    match frames::read_frame(bytes, &mut keys, &mut badges, &mut numbers) {
        Ok(_) => false,
        Err(refusal) => refusal == Refusal::CutShort,
    }
}

// How many proper prefixes give 10.
fn cut(bytes: &[u8]) -> usize {
    (0..bytes.len()).filter(|i| is_cut(&bytes[..*i])).count()
}

// 1 where a message with its entries is written as these bytes, else 0.
fn is_frame(
    message: Message,
    keys: &[u32],
    badges: &[u32],
    numbers: &[u32],
    bytes: &[u8],
) -> usize {
    let mut copy = [0u8; 1923];
    let n = frames::write_frame(message, keys, badges, numbers, &mut copy).unwrap_or(0);
    if 1923 < n {
        return 0;
    }
    if &copy[..n] == bytes { 1 } else { 0 }
}

// 1 where the bytes are read as a message that is written as the same bytes, else 0.
fn again(bytes: &[u8]) -> usize {
    let mut keys = [0u32; 256];
    let mut badges = [0u32; 256];
    let mut numbers = [0u32; 256];
    match frames::read_frame(bytes, &mut keys, &mut badges, &mut numbers) {
        Ok(message) => is_frame(message, &keys, &badges, &numbers, bytes),
        Err(_) => 0,
    }
}

fn report(rt: &impl Print, kind: u32, bytes: &[u8]) -> io::Result<()> {
    print!(rt; "{kind} {} {} {}", bytes.len(), cut(bytes), again(bytes))?;
    if bytes.len() <= 44 {
        print!(rt; " ")?;
        print_bytes(rt, bytes)?;
    }
    println!(rt;)
}

fn trip(
    rt: &impl Print,
    kind: u32,
    keys: &[u32; 256],
    badges: &[u32; 256],
    numbers: &[u32; 256],
) -> io::Result<()> {
    let mut bytes = [0u8; 1923];
    let n = frames::write_frame(sample(kind), keys, badges, numbers, &mut bytes).unwrap_or(0);
    if 1923 < n {
        return Ok(());
    }
    report(rt, kind, &bytes[..n])
}

fn main(rt: HostRuntime) -> io::Result<()> {
    let mut keys = [0u32; 256];
    let mut badges = [0u32; 256];
    let mut numbers = [0u32; 256];
    fill(&mut keys, &mut badges, &mut numbers);
    for kind in 1..13 {
        trip(&rt, kind, &keys, &badges, &numbers)?;
    }
    Ok(())
}
