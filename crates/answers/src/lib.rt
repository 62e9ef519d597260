// How a target answers a request: the reply takes the request's place, and the step counts; the answers that go by the counts alone. The
// tables are known to be sound.
#![tactic(auto)]

ghost use Rattle.std.specs.Prelude.{◌≡◌, List, ℕ, ◌<◌};
ghost use Rattle.tables.specs.Tables.{tables_of};
ghost use Rattle.tables.specs.Links.{targets};
ghost use Rattle.rules.specs.Answers.{left};
ghost use Rattle.rules.specs.Answer.{Ok};
ghost use Rattle.rules.specs.Common.{reply, got_reply};
ghost use Rattle.step_parts.specs.Filled.{Fillable};
ghost use Rattle.rules.specs.Request.{on_which_keys, on_get_all};
ghost use Rattle.answers.specs.Answered.{Answered};

use keys::Key;
use tables::links::Contents;
use tables::{counts, links};

// The reply with a badge and a number takes the request's place, and the step counts.
pub fn answer_badged(
    counts: &mut [u32],
    links: &mut [u32],
    client: usize,
    target: usize,
    badge: u32,
    number: u32,
)
    requires { Fillable counts.old links.old client target }
    ensures { Answered counts.old links.old client target (got_reply badge number) Ok
        counts.new links.new }
{
    let reply = Contents {
        key: Key::OPENING,
        number: number,
        badge: badge,
    };
    step_parts::fill(counts, links, client, target, links::Content::Reply(reply));
}

// The same of a reply with a number alone.
pub fn answer(counts: &mut [u32], links: &mut [u32], client: usize, target: usize, number: u32)
    requires { Fillable counts.old links.old client target }
    ensures { Answered counts.old links.old client target (reply number) Ok
        counts.new links.new }
{
    answer_badged(counts, links, client, target, 0, number);
}

// State 3: the keys are those of the log's entries of this moment.
pub fn which_keys(counts: &mut [u32], links: &mut [u32], client: usize, target: usize)
    requires { Fillable counts.old links.old client target }
    ensures { (clients keys values log writes reads : List ℕ) →
        left Ok (tables_of counts.new clients links.new keys values log writes reads)
        ≡ on_which_keys client target (tables_of counts.old clients links.old keys values log writes reads) }
{
    let entries = counts::count_at(counts, counts::ENTRIES);
    answer(counts, links, client, target, entries);
}

// State 5: the n of the moment of answering is that of the log's entries, or of the versions held.
pub fn get_all(counts: &mut [u32], links: &mut [u32], client: usize, target: usize)
    requires fillable { Fillable counts.old links.old client target }
    requires target_lt_targets { target < targets }
    ensures { (clients keys values log writes reads : List ℕ) →
        left Ok (tables_of counts.new clients links.new keys values log writes reads)
        ≡ on_get_all client target (tables_of counts.old clients links.old keys values log writes reads) }
{
    if target == links::COORDINATOR {
        let entries = counts::count_at(counts, counts::ENTRIES);
        answer(counts, links, client, target, entries);
        return;
    }
    let held = counts::count_at(counts, counts::HELD + target);
    answer(counts, links, client, target, held);
}
