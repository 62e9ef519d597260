// The scalars of the counts: the press, and what has been done so far.
ghost use Rattle.std.specs.Prelude.{◌≡◌, ◌≤◌, length};
ghost use Rattle.tables.specs.Layout.{count_words};
ghost use Rattle.tables.specs.Tables.{Tables, with_counts, method_of, servers_of, clients_of};
ghost use Rattle.soundness.specs.Sound.{press_fits, scalars_sound};
ghost use Rattle.soundness.specs.Parts.{progress_sound};

use sound_numbers::scalars;
use tables::{counts, log, records};

// Whether the counts are those of a press.
fn press_sound(counts: &[u32]) -> bool
    requires { count_words ≤ length counts.now }
    ensures { (t : Tables) → let u = with_counts counts.now t in result ≡ press_fits (method_of u) (servers_of u) (clients_of u) }
{
    let method = counts::count_at(counts, counts::METHOD);
    let servers = counts::count_at(counts, counts::SERVERS);
    let clients = counts::count_at(counts, counts::CLIENTS);
    scalars::press_fits(method, servers, clients)
}

// Whether the step number, the entries and the transactions begun are in their ranges.
fn progress_sound(counts: &[u32]) -> bool
    requires { count_words ≤ length counts.now }
    ensures { (t : Tables) → result ≡ progress_sound (with_counts counts.now t) }
{
    if !scalars::between(1, counts::count_at(counts, counts::STEP), counts::LAST_STEP) {
        return false;
    }
    if !scalars::between(
        1,
        counts::count_at(counts, counts::ENTRIES),
        log::PLACES as u32,
    ) {
        return false;
    }
    if counts::count_at(counts, counts::WRITES) > records::PLACES as u32 {
        return false;
    }
    counts::count_at(counts, counts::READS) <= records::PLACES as u32
}

pub fn scalars_sound(counts: &[u32]) -> bool
    requires { count_words ≤ length counts.now }
    ensures { (t : Tables) → result ≡ scalars_sound (with_counts counts.now t) }
{
    if !press_sound(counts) {
        return false;
    }
    progress_sound(counts)
}
