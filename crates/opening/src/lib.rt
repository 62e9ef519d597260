// The opening: method, servers, clients and setpoints are set; all else is empty or 0.
#![tactic(auto)]

ghost use Rattle.std.specs.Prelude.{◌≡◌, List, ℕ, ◌*◌, ◌≤◌, length};
ghost use Rattle.ranges.specs.Turns.{turns};
ghost use Rattle.tables.specs.Tables.{tables_of};
ghost use Rattle.tables.specs.Layout.{count_words, server_places, value_width};
ghost use Rattle.rules.specs.Open.{hold_one, opened_counts, open_key, open_value, opened};
ghost use Rattle.opening.specs.Ready.{OpenReady, open_scalars};

use keys::Key;
use tables::{counts, log, versions};

// Method, servers and clients, step 1 and one log entry.
fn open_scalars(counts: &mut [u32], method: u32, servers: u32, clients: u32)
    requires { count_words ≤ length counts.old }
    ensures { counts.new ≡ open_scalars method servers clients counts.old }
{
    counts::put_count(counts, counts::METHOD, method);
    counts::put_count(counts, counts::SERVERS, servers);
    counts::put_count(counts, counts::CLIENTS, clients);
    counts::put_count(counts, counts::STEP, 1);
    counts::put_count(counts, counts::ENTRIES, 1);
}

// Each server holds one version.
fn hold_one(counts: &mut [u32], servers: usize)
    requires { (count_words ≤ length counts.old) × (servers ≤ 16) }
    ensures { counts.new ≡ turns hold_one servers counts.old }
{
    for server in 0..servers {
        counts::put_count(counts, counts::HELD + server, 1);
    }
}

// The first version of each server is the opening's, with badge 0 and its setpoint.
fn open_versions(keys: &mut [u32], values: &mut [u32], setpoints: &[u32])
    requires setpoints_in_bounds { server_places * length setpoints.now ≤ length keys.old }
    requires setpoints_in_bounds_2 { value_width * (server_places * length setpoints.now) ≤ length values.old }
    ensures keys { keys.new ≡ turns open_key (length setpoints.now) keys.old }
    ensures values { values.new ≡ turns (open_value setpoints.now) (length setpoints.now) values.old }
{
    for (server, setpoint) in setpoints.iter().enumerate() {
        versions::put_version(keys, values, server, 0, Key::OPENING, 0, *setpoint);
    }
}

// The counts of an opened store.
fn open_counts(counts: &mut [u32], method: u32, servers: u32, clients: u32)
    requires { (count_words ≤ length counts.old) × (servers ≤ 16) }
    ensures { counts.new ≡ opened_counts method servers clients counts.old }
{
    counts.fill(0);
    open_scalars(counts, method, servers, clients);
    hold_one(counts, servers as usize);
}

// Opens the store on tables that are long enough: the opening's version at each server, its entry at tag 0.
// The number of clients is called panels here, since clients are their rows.
pub fn open(
    counts: &mut [u32],
    clients: &mut [u32],
    links: &mut [u32],
    keys: &mut [u32],
    values: &mut [u32],
    log: &mut [u32],
    method: u32,
    servers: u32,
    panels: u32,
    setpoints: &[u32],
)
    requires { OpenReady counts.old keys.old values.old log.old setpoints.now servers }
    ensures { (writes reads : List ℕ) →
        tables_of counts.new clients.new links.new keys.new values.new log.new writes reads
        ≡ opened method servers panels setpoints.now (tables_of counts.old clients.old links.old keys.old values.old log.old writes reads) }
{
    // Kept: (a) six tables for themselves: a Press would ask for writes and reads too, which an opening leaves as they are.
    open_counts(counts, method, servers, panels);
    clients.fill(0);
    links.fill(0);
    open_versions(keys, values, setpoints);
    log::put_entry(log, 0, Key::OPENING, keys::all_servers(servers));
}
