// Whether what servers and coordinator store is sound: the versions and the log. A small function decides each small definition of
// `soundness/Sound`, in whose words it is named. Each is lent only the tables that it reads and promises its answer for every contents of
// the others: that is the `(t : Tables) →` of a contract. What it asks, `sound_tables` has tested before.
#![tactic(auto)]

ghost use Rattle.std.specs.Prelude.{◌≡◌};
ghost use Rattle.tables.specs.Tables.{Tables, with_counts, with_versions, with_log};
ghost use Rattle.soundness.specs.Parts.{stores_sound};
ghost use Rattle.soundness.specs.Asked.{Counted, VersionsThere, LogThere};

mod entries;
mod servers;

pub fn stores_sound(counts: &[u32], keys: &[u32], values: &[u32], log: &[u32]) -> bool
    requires counted { Counted counts.now }
    requires versions_there { VersionsThere counts.now keys.now values.now }
    requires log_there { LogThere log.now }
    ensures { (t : Tables) → result ≡ stores_sound
        (with_log log.now (with_versions keys.now values.now (with_counts counts.now t))) }
{
    if !servers::servers_sound(counts, keys, values) {
        return false;
    }
    entries::log_sound(counts, log)
}
