// Two recordings of one wire, compared link by link. Both are judged wholly first; then each link is followed through both at once, by two
// cursors, with no memory beyond these.
#![tactic(auto)]

ghost use Rattle.std.specs.Prelude.{◌≡◌};
ghost use Rattle.recordings.specs.Recording.{frames_of};
ghost use Rattle.recordings.specs.Comparing.{difference_on, from_link, links, compared};
ghost use Rattle.recordings.specs.Results.{place_by, agreement_by, compared_by};
ghost use Rattle.recordings.specs.Whole.{Paired};

use causes::Refusal;
use recordings::{Cursor, Difference, LINKS, Recording, TARGETS};

// The place of the first difference on a link: two cursors go from frame to frame of it, each in its recording.
fn difference_on(one: &Recording, other: &Recording, client: u8, target: u8) -> Option<u32>
    requires { Paired one.now.lengths.now one.now.bytes.now other.now.lengths.now other.now.bytes.now }
    ensures { place_by result ≡ difference_on client target (frames_of one.now.lengths.now one.now.bytes.now)
        (frames_of other.now.lengths.now other.now.bytes.now) }
{
    let start = Cursor { frame: 0, at: 0 };
    let mut here = recorded_frames::next_on(one, client, target, start);
    let mut there = recorded_frames::next_on(other, client, target, start);
    let mut place: u32 = 0;
    while here.frame < one.lengths.len() {
        if other.lengths.len() <= there.frame {
            return Some(place);
        }
        if !recorded_frames::is_same_frame(one, here, other, there) {
            return Some(place);
        }
        here = recorded_frames::next_behind(one, client, target, here);
        there = recorded_frames::next_behind(other, client, target, there);
        place += 1;
    }
    if there.frame < other.lengths.len() {
        return Some(place);
    }
    None
}

// The first link that has a difference, by client, then by target.
fn first_difference(one: &Recording, other: &Recording) -> Option<Difference>
    requires { Paired one.now.lengths.now one.now.bytes.now other.now.lengths.now other.now.bytes.now }
    ensures { agreement_by result ≡ from_link (frames_of one.now.lengths.now one.now.bytes.now)
        (frames_of other.now.lengths.now other.now.bytes.now) links 0 }
{
    for link in 0..LINKS {
        let client = (link / TARGETS) as u8;
        let target = (link % TARGETS) as u8;
        if let Some(place) = difference_on(one, other, client, target) {
            return Some(Difference {
                client,
                target,
                place,
            });
        }
    }
    None
}

// Two recordings compared: their first difference, if they have one. Nothing is written.
pub fn compare(one: &Recording, other: &Recording) -> Result<Option<Difference>, Refusal>
    ensures { compared_by result ≡ compared one.now.lengths.now one.now.bytes.now
        other.now.lengths.now other.now.bytes.now }
{
    if !recorded_frames::is_well_made(one) {
        return Err(Refusal::IllMade);
    }
    if !recorded_frames::is_well_made(other) {
        return Err(Refusal::IllMade);
    }
    Ok(first_difference(one, other))
}
