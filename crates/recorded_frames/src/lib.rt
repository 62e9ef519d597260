// The frames of a recording: whether all are readable and add up to its bytes, the next one of a link, and whether two are equal.
// `recordings` says what is right. The functions stand above it, so that an edit of what comparing tells does not prove them again.
#![tactic(auto)]

ghost use Rattle.std.specs.Prelude.{◌≡◌, ◌+◌, ◌≤◌, ◌<◌, length, get_or};
ghost use Rattle.recordings.specs.Recording.{readable, well_made};
ghost use Rattle.recordings.specs.Comparing.{same};
ghost use Rattle.recordings.specs.ReadableLaws.{on_bytes};
ghost use Rattle.recordings.specs.Whole.{whole, frame_at, Standing, Reached, Here};

use recordings::{Cursor, Recording};

// "up to 4,096 frames"
pub const MOST_FRAMES: usize = 4096;

// A frame that the reader takes.
fn is_readable(bytes: &[u8]) -> bool
    ensures { result ≡ readable bytes.now }
{
    format_reading::scan_frame(bytes).is_ok()
}

// The lengths are used up by the bytes, and each frame is readable.
fn is_whole(recording: &Recording) -> bool
    ensures { result ≡ whole recording.now.lengths.now recording.now.bytes.now }
{
    let bytes = recording.bytes;
    let mut at: usize = 0;
    for length in recording.lengths {
        let n = *length as usize;
        if bytes.len() - at < n {
            return false;
        }
        let end = at + n;
        if !is_readable(&bytes[at..end]) {
            return false;
        }
        at = end;
    }
    at == bytes.len()
}

pub fn is_well_made(recording: &Recording) -> bool
    ensures { result ≡ well_made recording.now.lengths.now recording.now.bytes.now }
{
    if MOST_FRAMES < recording.lengths.len() {
        return false;
    }
    is_whole(recording)
}

// Whether the frame that begins at a byte is of a link, by its header.
fn is_on(bytes: &[u8], at: usize, client: u8, target: u8) -> bool
    requires { at + 2 ≤ length bytes.now }
    ensures { result ≡ on_bytes client target (get_or bytes.now at 0) (get_or bytes.now (at + 1) 0) }
{
    if bytes[at] % 16 != client {
        return false;
    }
    bytes[at + 1] / 8 == target
}

// The next frame of a link, from a cursor on, or the recording's end.
pub fn next_on(recording: &Recording, client: u8, target: u8, from: Cursor) -> Cursor
    requires { Standing recording.now.lengths.now recording.now.bytes.now from.frame from.at }
    ensures { Reached recording.now.lengths.now recording.now.bytes.now client target from.frame from.at result }
{
    let lengths = recording.lengths;
    let mut at = from.at;
    for frame in from.frame..lengths.len() {
        if is_on(recording.bytes, at, client, target) {
            return Cursor { frame, at };
        }
        at += lengths[frame] as usize;
    }
    Cursor {
        frame: lengths.len(),
        at,
    }
}

// The bytes of the frame at a cursor.
fn frame_bytes<'a>(recording: &Recording<'a>, cursor: Cursor) -> &'a [u8]
    requires { Here recording.now.lengths.now recording.now.bytes.now cursor.frame cursor.at }
    ensures { result.now ≡ frame_at recording.now.lengths.now recording.now.bytes.now cursor.frame cursor.at }
{
    let end = cursor.at + recording.lengths[cursor.frame] as usize;
    &recording.bytes[cursor.at..end]
}

// The frames at two cursors are equal.
pub fn is_same_frame(one: &Recording, here: Cursor, other: &Recording, there: Cursor) -> bool
    requires { Here one.now.lengths.now one.now.bytes.now here.frame here.at × Here other.now.lengths.now other.now.bytes.now there.frame there.at }
    ensures { result ≡ same (frame_at one.now.lengths.now one.now.bytes.now here.frame here.at)
        (frame_at other.now.lengths.now other.now.bytes.now there.frame there.at) }
{
    frame_bytes(one, here) == frame_bytes(other, there)
}

// The next frame of a link behind the one at a cursor.
pub fn next_behind(recording: &Recording, client: u8, target: u8, cursor: Cursor) -> Cursor
    requires { Here recording.now.lengths.now recording.now.bytes.now cursor.frame cursor.at }
    ensures { Reached recording.now.lengths.now recording.now.bytes.now client target (cursor.frame + 1)
        (cursor.at + get_or recording.now.lengths.now cursor.frame 0) result }
{
    let behind = Cursor {
        frame: cursor.frame + 1,
        at: cursor.at + recording.lengths[cursor.frame] as usize,
    };
    next_on(recording, client, target, behind)
}
