// What several replies do alike, on tables known to be sound: the link is emptied and the step counted, a READ ends; and what a delivered
// reply answers, as an outcome and as what is shown of it. `write_replies`, `read_replies` and `choice_replies` have a function for each state.
#![tactic(auto)]

ghost use Rattle.std.specs.Prelude.{◌≡◌, IfSome};
ghost use Rattle.tables.specs.Rows.{HasRow};
ghost use Rattle.tables.specs.Layout.{client_width, record_width, state_field, put_client_word};
ghost use Rattle.rules.specs.Common.{idle, ended_record, tagged_record};
ghost use Rattle.step_parts.specs.Filled.{Fillable};
ghost use Rattle.reply_parts.specs.Settled.{Settled};
ghost use Rattle.reply_parts.specs.Shown.{plainly, shown_by};

use rules::{Arrival, Delivered, states};
use step_parts::words;
use tables::{clients, links};

// What a delivered reply answers. Where a READ has ended, the answer shows the words of the mask's servers that the client's row has; the
// tags beside them are in a row that is lent. So nothing is built for a reply that shows nothing, and what is shown is written where it goes.
#[derive(Clone, Copy)]
pub struct Outcome {
    pub arrival: Arrival,
    // The mask of a READ that has ended.
    pub shown: Option<u32>,
}

// An answer that shows nothing.
pub fn plain(arrival: Arrival) -> Outcome
    ensures { result ≡ plainly arrival }
{
    Outcome {
        arrival,
        shown: None,
    }
}

// The link holds nothing now, and the step counts. The answer is the step's number.
pub fn settle(counts: &mut [u32], links: &mut [u32], client: usize, target: usize) -> u32
    requires { Fillable counts.old links.old client target }
    ensures { Settled counts.old links.old client target result counts.new links.new }
{
    step_parts::fill(counts, links, client, target, links::Content::Nothing)
}

// The answer to a delivered reply, with what it shows of the client's row and the tags beside it.
pub fn shown(clients: &[u32], client: usize, outcome: Outcome, tags: [u32; 16]) -> Delivered
    requires { IfSome outcome.shown (λ mask. HasRow client_width clients.now client) }
    ensures { result ≡ shown_by outcome tags clients.now client }
{
    let arrival = outcome.arrival;
    let Some(mask) = outcome.shown else {
        return step_parts::showing_nothing(arrival);
    };
    let mut setpoints = [0u32; 16];
    let mut badges = [0u32; 16];
    words::show_words(clients, client, clients::SETPOINTS, mask, &mut setpoints);
    words::show_words(clients, client, clients::BADGES, mask, &mut badges);
    Delivered {
        arrival,
        setpoints,
        tags,
        badges,
    }
}

// A READ ends: the client is idle, and the record gets tag and end.
pub fn finish(
    clients: &mut [u32],
    reads: &mut [u32],
    client: usize,
    place: u32,
    tag: u32,
    step: u32,
)
    requires { (HasRow client_width clients.old client) × (HasRow record_width reads.old place) }
    ensures clients { clients.new ≡ put_client_word clients.old client state_field idle }
    ensures reads { reads.new ≡ ended_record place step (tagged_record place tag reads.old) }
{
    clients::put_client_word(clients, client, clients::STATE, states::IDLE);
    history::end_read(reads, place as usize, tag, step);
}
