// Whether tables are sound: number 2 of the refusals. `sound` takes tables as they come: it tests the lengths and the scalars first, and so
// meets what the check of each part asks.
#![tactic(auto)]

ghost use Rattle.std.specs.Prelude.{◌≡◌};
ghost use Rattle.tables.specs.Lent.{tables_lent};
ghost use Rattle.tables.specs.Tables.{servers_of, clients_of};
ghost use Rattle.soundness.specs.Sound.{long_enough, sound};
ghost use Rattle.soundness.specs.Parts.{rest_sound};
ghost use Rattle.soundness.specs.Asked.{TablesThere};

use sound_lengths::lengths;
use tables::counts;
use tables::lent::Lent;

mod progress;

// Long enough for the servers and clients that the counts name.
fn tables_long(t: &Lent) -> bool
    ensures { result ≡ long_enough (servers_of (tables_lent t.now)) (clients_of (tables_lent t.now)) (tables_lent t.now) }
{
    if t.counts.len() < counts::WORDS {
        return false;
    }
    let servers = counts::count_at(t.counts, counts::SERVERS);
    let rows = counts::count_at(t.counts, counts::CLIENTS);
    lengths::long_enough(servers, rows, t)
}

// The conditions behind the lengths and the scalars.
fn rest_sound(t: &Lent) -> bool
    requires { let u = tables_lent t.now in TablesThere u.counts u.clients u.links u.keys u.values u.log u.writes u.reads }
    ensures { result ≡ rest_sound (tables_lent t.now) }
{
    if !sound_stores::stores_sound(t.counts, t.keys, t.values, t.log) {
        return false;
    }
    if !sound_clients::clients_sound(t.counts, t.clients, t.links) {
        return false;
    }
    sound_records::history_sound(t.counts, t.clients, t.writes, t.reads)
}

// Whether the tables are sound, whatever they hold and however short they are.
pub fn sound(t: &Lent) -> bool
    ensures { result ≡ sound (tables_lent t.now) }
{
    if !tables_long(t) {
        return false;
    }
    if !progress::scalars_sound(t.counts) {
        return false;
    }
    rest_sound(t)
}
