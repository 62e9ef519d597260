// Whether the tables are long enough, whatever they hold.
ghost use Rattle.std.specs.Prelude.{◌≡◌};
ghost use Rattle.tables.specs.Lent.{tables_lent};
ghost use Rattle.soundness.specs.Sound.{long_enough};

use tables::lent::Lent;
use tables::{clients, counts, links, log, records, versions};

// For so many servers, and so many rows: a row is a client's.
pub fn long_enough(servers: u32, rows: u32, t: &Lent) -> bool
    ensures { result ≡ long_enough servers rows (tables_lent t.now) }
{
    if t.counts.len() < counts::WORDS {
        return false;
    }
    if t.clients.len() < clients::WIDTH * rows as usize {
        return false;
    }
    if t.links.len() < links::WIDTH * (links::TARGETS * rows as usize) {
        return false;
    }
    if t.keys.len() < versions::PLACES * servers as usize {
        return false;
    }
    if t.values.len() < versions::WIDTH * (versions::PLACES * servers as usize) {
        return false;
    }
    if t.log.len() < log::WIDTH * log::PLACES {
        return false;
    }
    if t.writes.len() < records::WIDTH * records::PLACES {
        return false;
    }
    records::WIDTH * records::PLACES <= t.reads.len()
}
