// The causes for which a call is refused. Each has the number by which documents, members and other languages know it.
#![tactic(auto)]

ghost use Rattle.std.specs.Prelude.{◌≡◌};
ghost use Rattle.std.specs.Result.{result_map_both};
ghost use Rattle.causes.specs.Numbers.{number_of};

#[derive(Clone, Copy, PartialEq, Eq)]
pub enum Refusal {
    // Method, servers or clients wrong, or not as many setpoints as servers.
    NoSuchPress,
    // The tables are not sound; of an opening, too short.
    NotSound,
    // No such client or target.
    Absent,
    // The method is retired: nothing new begins on its tables.
    Retired,
    // The client is not idle.
    Busy,
    // The mask is zero or beyond the servers, or a WRITE has not as many setpoints as servers.
    Unfit,
    // No record's place of this kind is left, or no step number.
    Spent,
    // A target has no place for what it is sent, or lacks what it is asked for.
    Unanswerable,
    // The link has no such message.
    NoMessage,
    // The frame is cut short.
    CutShort,
    // A field of the frame is wrong, or the message is no frame's.
    Malformed,
    // The lent space is too small.
    NoRoom,
    // The line of a schedule is not readable.
    Unreadable,
    // The link has nothing to lose.
    NothingToLose,
    // Nothing is lost on the link.
    NothingLost,
    // The recording is not well made.
    IllMade,
}

impl Refusal {
    // The number of a cause.
    pub fn number(self) -> u8
        ensures { result ≡ number_of self }
    {
        match self {
            Refusal::NoSuchPress => 1,
            Refusal::NotSound => 2,
            Refusal::Absent => 3,
            Refusal::Retired => 4,
            Refusal::Busy => 5,
            Refusal::Unfit => 6,
            Refusal::Spent => 7,
            Refusal::Unanswerable => 8,
            Refusal::NoMessage => 9,
            Refusal::CutShort => 10,
            Refusal::Malformed => 11,
            Refusal::NoRoom => 12,
            Refusal::Unreadable => 13,
            Refusal::NothingToLose => 14,
            Refusal::NothingLost => 15,
            Refusal::IllMade => 16,
        }
    }
}

// An answer, where it is refused by the number of its cause: for who takes any number of a refusal.
pub fn numbered<T>(answer: Result<T, Refusal>) -> Result<T, u8>
    ensures { result ≡ result_map_both (λ given. given) number_of answer }
{
    match answer {
        Ok(given) => Ok(given),
        Err(refusal) => Err(refusal.number()),
    }
}
