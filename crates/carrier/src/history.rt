// What happened on a carrier: each act with its answer.
ghost use Rattle.std.specs.Prelude.{◌≡◌, Some};
ghost use Rattle.carrier.specs.Histories.{grants, tells};
ghost use Rattle.carrier.specs.Words.{said};

use roster::denial::Denial;
use roster::moves::Move;
use std::fmt;

// One call. Any numbers may be handed in.
#[derive(Clone, Copy)]
pub enum Act {
    // a seat's put of a code for a slot
    Put { seat: u64, slot: u64, code: u64 },
    Move(Move),
    // the question what a seat holds from an origin and slot
    Holds { seat: u64, origin: u64, slot: u64 },
    // the question whether the carrier is still
    Still,
}

// A refusal is one of the answers, and not the error of a Result: whoever reads the history reads it as the others.
#[derive(Clone, Copy)]
pub enum Answer {
    Granted,
    Denied(Denial),
    Held(Option<u64>),
    Still(bool),
}

#[derive(Clone, Copy)]
pub struct Entry {
    pub act: Act,
    pub answer: Answer,
    // whether the carrier was still after the act
    pub still: bool,
}

impl From<Result<(), Denial>> for Answer {
    ghost from_gives = { λ r a. a ≡ grants r };

    fn from(done: Result<(), Denial>) -> Answer {
        match done {
            Ok(()) => Answer::Granted,
            Err(denial) => Answer::Denied(denial),
        }
    }
}

impl From<Result<Option<u64>, Denial>> for Answer {
    ghost from_gives = { λ r a. a ≡ tells r };

    fn from(told: Result<Option<u64>, Denial>) -> Answer {
        match told {
            Ok(held) => Answer::Held(held),
            Err(denial) => Answer::Denied(denial),
        }
    }
}

impl fmt::Display for Answer {
    ghost output = { λ a. Some (said a) };

    fn fmt<W: fmt::Write>(&self, f: &mut fmt::Formatter<W>) -> fmt::Result {
        match self {
            Answer::Granted => write!(f, "granted"),
            Answer::Denied(denial) => write!(f, "{denial}"),
            Answer::Held(None) => write!(f, "none"),
            Answer::Held(Some(code)) => write!(f, "{code}"),
            Answer::Still(true) => write!(f, "yes"),
            Answer::Still(false) => write!(f, "no"),
        }
    }
}
