// Which of the load's numbered steps would be accepted.
#![tactic(auto)]

ghost use Rattle.std.specs.Prelude.{◌≡◌, ◌≤◌, ◌<◌, length};
ghost use Rattle.tables.specs.Lent.{tables_lent};
ghost use Rattle.tables.specs.Rows.{HasRow};
ghost use Rattle.tables.specs.Layout.{count_words};
ghost use Rattle.tables.specs.Links.{targets, link_width, link_row};
ghost use Rattle.tables.specs.Tables.{clients_of};
ghost use Rattle.refusals.specs.Cases.{Judged};
ghost use Rattle.workload.specs.Load.{numbered_count};
ghost use Rattle.workload.specs.Accepts.{accepts_write, accepts_read, is_held, is_entered, answers_in, accepts_request, accepts_reply, accepts};
ghost use Rattle.workload.specs.Ready.{Searched, Logged, Served, Scanned};

use keys::Key;
use rules::states;
use tables::lent::Lent;
use tables::links::{Content, Contents};
use tables::{clients, counts, links, log, versions};

// Whether the WRITE of a client to all servers would be accepted.
fn accepts_write(t: &Lent, client: u32) -> bool
    requires { let u = tables_lent t.now in Judged u.counts u.clients }
    ensures { result ≡ accepts_write (tables_lent t.now) client }
{
    let servers = counts::count_at(t.counts, counts::SERVERS);
    let all = keys::all_servers(servers);
    refusal_tests::write_fault(t.counts, t.clients, client, all, servers as usize).is_ok()
}

// Whether the READ of all servers by a client would be accepted.
fn accepts_read(t: &Lent, client: u32) -> bool
    requires { let u = tables_lent t.now in Judged u.counts u.clients }
    ensures { result ≡ accepts_read (tables_lent t.now) client }
{
    let all = keys::all_servers(counts::count_at(t.counts, counts::SERVERS));
    refusal_tests::read_fault(t.counts, t.clients, client, all).is_ok()
}

// Whether a server holds a key.
fn holds(counts: &[u32], keys: &[u32], server: usize, key: Key) -> bool
    requires { Searched counts.now keys.now server }
    ensures { result ≡ is_held counts.now keys.now server key }
{
    let held = counts::count_at(counts, counts::HELD + server) as usize;
    server::find(keys, server, held, key) < held
}

// Whether the log has an entry with a key.
fn has_entry(counts: &[u32], log: &[u32], key: Key) -> bool
    requires { Logged counts.now log.now }
    ensures { result ≡ is_entered counts.now log.now key }
{
    let entries = counts::count_at(counts, counts::ENTRIES) as usize;
    log_search::find(log, entries, key) < entries
}

// Whether the target of a request can answer it, by the state that sent it. A target that is full has the key already, or cannot.
fn answers(t: &Lent, state: u32, target: usize, contents: Contents) -> bool
    requires { let u = tables_lent t.now in Served u.counts u.keys u.log state target }
    ensures { let u = tables_lent t.now in result ≡ answers_in state contents u.counts u.keys u.log target }
{
    match state {
        states::WRITING => {
            if counts::count_at(t.counts, counts::HELD + target) < versions::PLACES as u32 {
                return true;
            }
            holds(t.counts, t.keys, target, contents.key)
        }
        states::ENTERING => {
            if counts::count_at(t.counts, counts::ENTRIES) < log::PLACES as u32 {
                return true;
            }
            has_entry(t.counts, t.log, contents.key)
        }
        states::ASKING_SETPOINTS => holds(t.counts, t.keys, target, contents.key),
        _ => true,
    }
}

// Whether the delivery of a request would be accepted.
fn accepts_request(t: &Lent, client: u32, target: u32) -> bool
    requires scanned { let u = tables_lent t.now in Scanned u.counts u.clients u.links u.keys u.log }
    requires client_bound { (client < clients_of (tables_lent t.now)) × (target < targets) }
    ensures { result ≡ accepts_request (tables_lent t.now) client target }
{
    let link = links::link_at(t.links, client as usize, target as usize);
    match link.content {
        Content::Request(contents) => {
            let state = clients::client_word(t.clients, client as usize, clients::STATE);
            refusal_tests::delivery_fault(t.counts, client, target).is_ok()
                && answers(t, state, target as usize, contents)
        }
        _ => false,
    }
}

// Whether the delivery of a reply would be accepted.
fn accepts_reply(t: &Lent, client: u32, target: u32) -> bool
    requires count_words_in_bounds { count_words ≤ length (tables_lent t.now).counts }
    requires has_row { HasRow link_width (tables_lent t.now).links (link_row client target) }
    ensures { result ≡ accepts_reply (tables_lent t.now) client target }
{
    let link = links::link_at(t.links, client as usize, target as usize);
    match link.content {
        Content::Reply(_) => refusal_tests::delivery_fault(t.counts, client, target).is_ok(),
        _ => false,
    }
}

// Whether the step of a number would be accepted.
pub fn accepts(t: &Lent, number: u32) -> bool
    requires scanned { let u = tables_lent t.now in Scanned u.counts u.clients u.links u.keys u.log }
    requires number_bound { number < numbered_count (clients_of (tables_lent t.now)) }
    ensures { result ≡ accepts (tables_lent t.now) number }
{
    let panels = counts::count_at(t.counts, counts::CLIENTS);
    if number < panels {
        accepts_write(t, number)
    } else if number < workload::BEGINS * panels {
        accepts_read(t, number - panels)
    } else if number < workload::BEFORE_REPLIES * panels {
        let row = number - workload::BEGINS * panels;
        accepts_request(t, row / workload::TARGETS, row % workload::TARGETS)
    } else {
        let row = number - workload::BEFORE_REPLIES * panels;
        accepts_reply(t, row / workload::TARGETS, row % workload::TARGETS)
    }
}
