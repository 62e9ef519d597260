// What is shown of a step, by its answer.
#![tactic(auto)]

ghost use Rattle.std.specs.Prelude.{◌≡◌};
ghost use Rattle.std.specs.Option.{option_map_or};
ghost use Rattle.std.specs.Result.{result_err};
ghost use Rattle.tables.specs.Tables.{Tables};
ghost use Rattle.rules.specs.Answer.{Ok, Refused};
ghost use Rattle.rules.specs.Answers.{left, arrived};
ghost use Rattle.rules.specs.Results.{answer_by};
ghost use Rattle.playing.specs.Played.{answer_word, arrival_word, showing, noted, plainly, left_played, arrived_played, mask_or_zero};

use causes::Refusal;
use playing::Shown;
use printing::Word;
use rules::{Arrival, Delivered};
use tables::clients::{MASK, WIDTH};

// The word of an answer; a refusal goes by any number.
fn answer_word(answer: Result<(), u8>) -> Word
    ensures { result ≡ answer_word (option_map_or Refused (result_err answer) Ok) }
{
    match answer {
        Ok(()) => Word::Ok,
        Err(number) => Word::No(number as u32),
    }
}

// The word of a delivered reply.
fn arrival_word(arrival: Arrival) -> Word
    ensures { result ≡ arrival_word arrival }
{
    match arrival {
        Arrival::Wait => Word::Wait,
        Arrival::Next => Word::Next,
        Arrival::Write(tag) => Word::Write(tag),
        Arrival::Read(tag) => Word::Read(tag),
        Arrival::Refused(number) => Word::No(number as u32),
    }
}

// What is printed of a step that shows nothing.
pub fn noted(word: Word, mask: u32) -> Shown
    ensures { result ≡ noted word mask }
{
    Shown {
        word,
        mask,
        setpoints: [0; 16],
        tags: [0; 16],
        badges: [0; 16],
    }
}

// The same where no client's mask stands beside it.
pub fn plain(word: Word) -> Shown
    ensures { result ≡ plainly word }
{
    noted(word, 0)
}

// What is printed of an answer; a refusal goes by any number.
pub fn answered(answer: Result<(), u8>) -> Shown
    ensures { (t : Tables) → showing result t ≡ left_played (left (option_map_or Refused (result_err answer) Ok) t) }
{
    plain(answer_word(answer))
}

// What is printed of an opening, a begin, a delivered request, a loss and a resend.
pub fn of_step(answer: Result<(), Refusal>) -> Shown
    ensures { (t : Tables) → showing result t ≡ left_played (left (answer_by answer) t) }
{
    answered(causes::numbered(answer))
}

// What is printed of a delivered reply; the mask is that of the client.
pub fn arrived(delivered: Delivered, mask: u32) -> Shown
    ensures { (t : Tables) → showing result t ≡ arrived_played mask (arrived delivered t) }
{
    let setpoints = delivered.setpoints;
    let tags = delivered.tags;
    let badges = delivered.badges;
    Shown {
        word: arrival_word(delivered.arrival),
        mask,
        setpoints,
        tags,
        badges,
    }
}

// The mask of a client; 0 where it has no row, so that any number may be asked.
pub fn mask_of(clients: &[u32], client: u32) -> u32
    ensures { result ≡ mask_or_zero clients.now client }
{
    let row = client as usize;
    if clients.len() / WIDTH <= row {
        return 0;
    }
    tables::clients::client_word(clients, row, MASK)
}
