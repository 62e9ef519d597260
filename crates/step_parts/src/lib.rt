// What several steps do alike: a link filled and the step counted, whether a client waits, a word of each masked server kept or shown.
#![tactic(auto)]

ghost use Rattle.std.specs.Prelude.{◌≡◌};
ghost use Rattle.tables.specs.Links.{HasLinks};
ghost use Rattle.rules.specs.Answers.{nothing_shown};
ghost use Rattle.rules.specs.Common.{pending};
ghost use Rattle.step_parts.specs.Filled.{Fillable, Filled};
ghost use Rattle.step_parts.specs.Waiting.{KindsFit};

pub mod words;

use rules::{Arrival, Delivered};
use tables::{counts, links};

// An answer that shows no setpoint.
pub fn showing_nothing(arrival: Arrival) -> Delivered
    ensures { result ≡ nothing_shown arrival }
{
    Delivered {
        arrival,
        setpoints: [0; 16],
        tags: [0; 16],
        badges: [0; 16],
    }
}

// Whether some link of a client holds a request or a reply.
pub fn is_pending(links: &[u32], client: usize) -> bool
    requires { HasLinks links.now client }
    ensures { result ≡ pending links.now client }
{
    (0..links::TARGETS).any(|target| !links::is_empty(links, client, target))
}

// The same of links whose kinds are among the four, as those of sound tables are. All kinds are gathered by "or" and tested once: the
// compiler makes 17 instructions of it, where an exit at each link takes up to 68.
pub fn is_waiting(links: &[u32], client: usize) -> bool
    requires { HasLinks links.now client × KindsFit links.now client }
    ensures { result ≡ pending links.now client }
{
    let mut kinds = 0;
    for target in 0..links::TARGETS {
        kinds |= links::link_word(links, client, target, links::KIND);
    }
    kinds != 0
}

// A link gets a content, and the step counts. The answer is the step's number.
pub fn fill(
    counts: &mut [u32],
    links: &mut [u32],
    client: usize,
    target: usize,
    content: links::Content,
) -> u32
    requires { Fillable counts.old links.old client target }
    ensures { Filled counts.old links.old client target content result counts.new links.new }
{
    links::put_link(links, client, target, links::Link { content });
    let step = counts::count_at(counts, counts::STEP) + 1;
    counts::put_count(counts, counts::STEP, step);
    step
}
