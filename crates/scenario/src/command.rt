// The first words of lines.
ghost use Rattle.std.specs.Prelude.{◌≡◌, MatchOption, ◌≢◌, Some};
ghost use Rattle.scenario.specs.Expected.{usage};
ghost use Rattle.scenario.specs.Lines.{name};

use std::fmt;

#[derive(Clone, Copy, PartialEq, Eq, Debug)]
pub enum Command {
    Carrier,
    Roster,
    Put,
    Move,
    Holds,
    Still,
    Settle,
}

// How a line with this command is written.
impl fmt::Display for Command {
    ghost output = { λ c. Some (usage c) };

    fn fmt<W: fmt::Write>(&self, f: &mut fmt::Formatter<W>) -> fmt::Result {
        f.write_str(match self {
            Command::Carrier => "`carrier letters` or `carrier board`",
            Command::Roster => "`roster N T SET`",
            Command::Put => "`put SEAT SLOT CODE`",
            Command::Move => "`move ADDRESS KIND FROM TO LETTER ORIGIN SLOT CODE`",
            Command::Holds => "`holds SEAT ORIGIN SLOT`",
            Command::Still => "`still`",
            Command::Settle => "`settle`",
        })
    }
}

// The command that a word names.
pub fn named(word: &str) -> Option<Command>
    ensures { MatchOption result ((c : Command) → word.now ≢ name c) (λ c. word.now ≡ name c) }
{
    match word {
        "carrier" => Some(Command::Carrier),
        "roster" => Some(Command::Roster),
        "put" => Some(Command::Put),
        "move" => Some(Command::Move),
        "holds" => Some(Command::Holds),
        "still" => Some(Command::Still),
        "settle" => Some(Command::Settle),
        _ => None,
    }
}
