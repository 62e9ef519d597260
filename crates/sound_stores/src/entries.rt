// The log: tag 0 holds the opening's key with all servers, and every entry is in its range.
ghost use Rattle.std.specs.Prelude.{◌≡◌};
ghost use Rattle.ranges.specs.All.{all_below};
ghost use Rattle.tables.specs.Rows.{HasRow};
ghost use Rattle.tables.specs.Layout.{entry_width};
ghost use Rattle.tables.specs.Tables.{Tables, with_counts, with_log, entries_of};
ghost use Rattle.soundness.specs.Sound.{entry_sound, log_sound};
ghost use Rattle.soundness.specs.Asked.{Counted, LogThere};
ghost use Rattle.soundness.specs.Parts.{first_entry_sound};

use sound_numbers::scalars;
use tables::{counts, log};

fn first_entry_sound(counts: &[u32], log: &[u32]) -> bool
    requires counted { Counted counts.now }
    requires log_there { LogThere log.now }
    ensures { (t : Tables) → result ≡ first_entry_sound (with_log log.now (with_counts counts.now t)) }
{
    if log::key_word(log, 0) != 0 {
        return false;
    }
    log::entry_mask(log, 0) == keys::all_servers(counts::count_at(counts, counts::SERVERS))
}

fn entry_sound(counts: &[u32], log: &[u32], tag: usize) -> bool
    requires counted { Counted counts.now }
    requires has_row { HasRow entry_width log.now tag }
    ensures { (t : Tables) → result ≡ entry_sound (with_log log.now (with_counts counts.now t)) tag }
{
    if !scalars::key_in_range(
        counts::count_at(counts, counts::CLIENTS),
        log::key_word(log, tag),
    ) {
        return false;
    }
    keys::mask_within(
        log::entry_mask(log, tag),
        counts::count_at(counts, counts::SERVERS),
    )
}

fn entries_sound(counts: &[u32], log: &[u32]) -> bool
    requires counted { Counted counts.now }
    requires log_there { LogThere log.now }
    ensures { (t : Tables) → let u = with_log log.now (with_counts counts.now t) in result ≡ all_below (entry_sound u) (entries_of u) }
{
    let entries = counts::count_at(counts, counts::ENTRIES) as usize;
    (0..entries).all(|tag| entry_sound(counts, log, tag))
}

pub fn log_sound(counts: &[u32], log: &[u32]) -> bool
    requires counted { Counted counts.now }
    requires log_there { LogThere log.now }
    ensures { (t : Tables) → result ≡ log_sound (with_log log.now (with_counts counts.now t)) }
{
    if !first_entry_sound(counts, log) {
        return false;
    }
    entries_sound(counts, log)
}
