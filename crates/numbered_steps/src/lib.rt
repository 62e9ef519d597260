// The load's steps by number, and which of so many a seed picks.
#![tactic(auto)]

ghost use Rattle.std.specs.Prelude.{◌≡◌, List, ℕ, ◌≤◌, ◌<◌};
ghost use Rattle.tables.specs.Tables.{tables_of};
ghost use Rattle.workload.specs.Load.{advance, index_by, numbered};
ghost use Rattle.workload.specs.Ready.{Numberable};

use schedule::Step;
use tables::{clients, counts};
use workload::LoadStep;

// The number behind a seed.
pub fn advance(seed: u32) -> u32
    ensures { result ≡ advance seed }
{
    seed.wrapping_mul(1664525).wrapping_add(1013904223)
}

// Which of so many steps a number picks: its high half is scaled down to their count.
pub fn index_by(number: u32, count: u32) -> u32
    requires { (0 < count) × (count ≤ 576) }
    ensures { (result ≡ index_by number count) × (result < count) }
{
    number / 65536 * count / 65536
}

// The step of a number.
pub fn numbered(counts: &[u32], clients: &[u32], number: u32) -> LoadStep
    requires { Numberable counts.now clients.now }
    ensures { (links keys values log writes reads : List ℕ) →
        result ≡ numbered (tables_of counts.now clients.now links keys values log writes reads) number }
{
    let panels = counts::count_at(counts, counts::CLIENTS);
    let all = keys::all_servers(counts::count_at(counts, counts::SERVERS));
    if number < panels {
        let count = clients::client_word(clients, number as usize, clients::COUNT);
        LoadStep {
            step: Step::BeginWrite(number, all, 0),
            setpoint: count + 1,
        }
    } else if number < workload::BEGINS * panels {
        LoadStep {
            step: Step::BeginRead(number - panels, all),
            setpoint: 0,
        }
    } else if number < workload::BEFORE_REPLIES * panels {
        let row = number - workload::BEGINS * panels;
        LoadStep {
            step: Step::Request(row / workload::TARGETS, row % workload::TARGETS),
            setpoint: 0,
        }
    } else {
        let row = number - workload::BEFORE_REPLIES * panels;
        LoadStep {
            step: Step::Reply(row / workload::TARGETS, row % workload::TARGETS),
            setpoint: 0,
        }
    }
}
