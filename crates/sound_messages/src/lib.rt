// What a request and a reply may carry, by the state that sent it or gets it back: the check of one message, by numbers and the counts. It
// stands below the check of links and clients, so that an edit of it proves neither.
#![tactic(auto)]

ghost use Rattle.std.specs.Prelude.{◌≡◌, ◌<◌};
ghost use Rattle.tables.specs.Tables.{Tables, with_counts};
ghost use Rattle.soundness.specs.Sound.{holding, own_key, request_sound, reply_sound, badge_sound};
ghost use Rattle.soundness.specs.Asked.{Counted};

use rules::states;
use sound_numbers::scalars;
use tables::{counts, links};

// How many versions a server holds, how many entries the log has.
pub fn holding(counts: &[u32], target: usize) -> u32
    requires target_bound { target < 17 }
    requires counted { Counted counts.now }
    ensures { (t : Tables) → result ≡ holding (with_counts counts.now t) target }
{
    if target == links::COORDINATOR {
        return counts::count_at(counts, counts::ENTRIES);
    }
    counts::count_at(counts, counts::HELD + target)
}

// Whether a word is the key of a WRITE of a client.
fn own_key(client: usize, word: u32) -> bool
    ensures { result ≡ own_key client word }
{
    if !scalars::between(256, word, 65535) {
        return false;
    }
    (word % 256) as usize == client
}

pub fn request_sound(counts: &[u32], state: u32, client: usize, word: u32, number: u32) -> bool
    requires { Counted counts.now }
    ensures { (t : Tables) → result ≡ request_sound state client word number (with_counts counts.now t) }
{
    match state {
        states::WRITING => own_key(client, word),
        states::ENTERING => {
            if !own_key(client, word) {
                return false;
            }
            keys::mask_within(number, counts::count_at(counts, counts::SERVERS))
        }
        states::ASKING_SETPOINTS => scalars::key_in_range(
            counts::count_at(counts, counts::CLIENTS),
            word,
        ),
        _ => true,
    }
}

pub fn reply_sound(counts: &[u32], state: u32, target: usize, number: u32) -> bool
    requires target_bound { target < 17 }
    requires counted { Counted counts.now }
    ensures { (t : Tables) → result ≡ reply_sound state target number (with_counts counts.now t) }
{
    match state {
        states::ENTERING => {
            if number < 1 {
                return false;
            }
            number < counts::count_at(counts, counts::ENTRIES)
        }
        states::ASKING_KEYS => scalars::between(1, number, holding(counts, target)),
        states::ASKING_ALL => scalars::between(1, number, holding(counts, target)),
        _ => true,
    }
}

// The badge on a link, where the state is the one whose messages carry it.
pub fn badge_sound(carrier: u32, state: u32, badge: u32) -> bool
    ensures { result ≡ badge_sound carrier state badge }
{
    if state != carrier {
        return true;
    }
    scalars::badge_fits(badge)
}
