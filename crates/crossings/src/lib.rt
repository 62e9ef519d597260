// What a delivered reply answers, as it crosses to other languages, made of an outcome on tables known to be sound: nothing is shown, or a
// READ has ended and the client's row shows its setpoints and badges. `sound_exports` calls these; an edit of them proves no step.
#![tactic(auto)]

ghost use Rattle.std.specs.Prelude.{◌≡◌};
ghost use Rattle.tables.specs.Rows.{HasRow};
ghost use Rattle.tables.specs.Layout.{client_width};
ghost use Rattle.rules.specs.Answers.{nothing_shown};
ghost use Rattle.reply_parts.specs.Shown.{ended, shown_by};
ghost use Rattle.step_numbers.specs.Numbers.{crossing_of};

use rules::Arrival;
use step_numbers::Crossing;
use step_parts::words;
use tables::clients;

// An answer that shows nothing, as it crosses.
pub fn plain(arrival: Arrival) -> Crossing
    ensures { result ≡ crossing_of (nothing_shown arrival) }
{
    Crossing {
        number: step_numbers::arrival_number(arrival),
        setpoints: [0; 16],
        tags: [0; 16],
        badges: [0; 16],
    }
}

// The answer where a READ has ended, with what it shows of the client's row and the tags beside it.
pub fn shown(
    clients: &[u32],
    client: usize,
    arrival: Arrival,
    mask: u32,
    tags: [u32; 16],
) -> Crossing
    requires { HasRow client_width clients.now client }
    ensures { result ≡ crossing_of (shown_by (ended arrival mask) tags clients.now client) }
{
    // Kept: (a) for the edit `setpoints_as_badges`; made of the `Delivered` of `reply_parts::shown`, a reply took 7 to 19 instructions more.
    let mut setpoints = [0u32; 16];
    let mut badges = [0u32; 16];
    words::show_words(clients, client, clients::SETPOINTS, mask, &mut setpoints);
    words::show_words(clients, client, clients::BADGES, mask, &mut badges);
    Crossing {
        number: step_numbers::arrival_number(arrival),
        setpoints,
        tags,
        badges,
    }
}
