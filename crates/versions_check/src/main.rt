// Puts a version into a table of 4096 places, looks a key up in it, and prints what was found, a line for each trial:
// what the append answered, how many can be read then, where the key stands, what the look-up answered, the badge and the setpoint.
// `stdout` holds what the rules say of each line, worked out by hand.
#![tactic(auto)]

ghost use Rattle.std.specs.Prelude.{◌≡◌};
ghost use Rattle.keys.specs.Keys.{key_of};
ghost use Rattle.version_records.specs.Reading.{trial_by};
ghost use Rattle.version_records.specs.Table.{trial_of};
ghost use Rattle.version_records.specs.Core.{version_of};

use keys::Key;
use std::io;
use version_records::{Trial, Version};

fn version_of(count: u8, client: u8, badge: u16, setpoint: u32) -> Version
    ensures { result ≡ version_of (key_of count client) badge setpoint }
{
    Version {
        key: Key::new(count, client),
        badge,
        setpoint,
    }
}

fn print(rt: &impl Print, trial: Trial) -> io::Result<()> {
    let appended = match trial.appended {
        Ok(()) => 0,
        Err(refusal) => refusal.number(),
    };
    let (read, badge, setpoint) = match trial.reading {
        Ok(reading) => (0, reading.badge, reading.setpoint),
        Err(refusal) => (refusal.number(), 0, 0),
    };
    println!(rt;
        "{} {} {} {} {} {}",
        appended, trial.readable, trial.place, read, badge, setpoint
    )
}

// A table that is full of key (1, 0) with badge 7 at 30 takes a version of a key with badge 65,535 at 45, behind those held; then a key is
// looked up.
fn tried(held: usize, count: u8, client: u8, sought: Key) -> Trial
    ensures { trial_by result ≡ trial_of (version_of (key_of 1 0) 7 30) held (version_of (key_of count client) 65535 45) sought }
{
    let blank = version_of(1, 0, 7, 30);
    let version = version_of(count, client, 65535, 45);
    versions::append_and_read(blank, held, version, sought)
}

fn main(rt: HostRuntime) -> io::Result<()> {
    // The version that was appended is found behind the three that were held.
    print(&rt, tried(3, 2, 1, Key::new(2, 1)))?;
    // Of two that bear the key, the first is found, and not the one that arrived last.
    print(&rt, tried(3, 1, 0, Key::new(1, 0)))?;
    // A key that no version bears is not held.
    print(&rt, tried(3, 2, 1, Key::new(3, 0)))?;
    // What stands in a place that is not held is not found.
    print(&rt, tried(0, 2, 1, Key::new(1, 0)))?;
    // The last of the 256 places is taken; then there is none left, and nothing changes.
    print(&rt, tried(255, 2, 1, Key::new(2, 1)))?;
    print(&rt, tried(256, 2, 1, Key::new(2, 1)))?;
    // More than 256 are never read, however many are said to be held.
    print(&rt, tried(5000, 2, 1, Key::new(1, 0)))
}
