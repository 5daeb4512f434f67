// What a line asks for.
ghost use Rattle.scenario.specs.Expected.{expected};
ghost use Rattle.scenario.specs.declared.line.NoLine.TheVariants.{Memory};
ghost use Rattle.std.specs.Prelude.{◌≡◌, Some};

use crate::command::Command;
use carrier::history::Act;
use std::alloc::AllocError;
use std::fmt;

#[derive(Clone, Copy, PartialEq, Eq, Debug)]
pub enum Kind {
    Letters,
    Board,
}

#[derive(Clone, Copy)]
pub enum Line {
    Carrier(Kind),
    Roster { n: u64, t: u64, faulty: u64 },
    Act(Act),
    // hand over all that can be, until the carrier is still
    Settle,
}

// Why a line is none of these.
#[derive(Clone, Copy, PartialEq, Eq, Debug)]
pub enum NoLine {
    // its first word is no command
    Unknown,
    // what follows the command is not what it takes
    Wrong(Command),
    // there is no memory to read it
    Memory,
}

impl From<AllocError> for NoLine {
    ghost from_gives = { λ _ e. e ≡ Memory };

    fn from(_e: AllocError) -> NoLine {
        NoLine::Memory
    }
}

// What was expected in place of the line.
impl fmt::Display for NoLine {
    ghost output = { λ e. Some (expected e) };

    fn fmt<W: fmt::Write>(&self, f: &mut fmt::Formatter<W>) -> fmt::Result {
        match self {
            NoLine::Unknown => f.write_str(
                "expected `carrier`, `roster`, `put`, `move`, `holds`, `still` or `settle`",
            ),
            NoLine::Wrong(Command::Carrier) => write!(f, "expected {}", Command::Carrier),
            NoLine::Wrong(command) => {
                write!(f, "expected {command}, numbers decimal and below 2^64")
            }
            NoLine::Memory => f.write_str("there is no memory to read it"),
        }
    }
}
