// From a line to what it asks for.
ghost use Rattle.std.specs.Prelude.{◌≡◌, IfOk, MatchOption, ◌≢◌};
ghost use Rattle.scenario.specs.declared.command.Command.TheVariants.{Carrier as carrier};
ghost use Rattle.scenario.specs.Lines.{command_of, numbers_of, Parsed, Reads, Rest};

use crate::command::{Command, named};
use crate::line::{Kind, Line, NoLine};
use carrier::history::Act;
use roster::moves::Move;
use script::line::Words;
use script::words::words;
use std::alloc::{AllocError, Global};

// What the line asks for, and nothing for an empty line or a comment.
pub fn parse(heap: Global, line: &str) -> Result<Option<Line>, NoLine>
    ensures { Parsed line.now result }
{
    let words = words(heap, line)?;
    asked(heap, &Words::new(words.as_slice()))
}

// What the words ask for.
fn asked(heap: Global, words: &Words<'_, '_>) -> Result<Option<Line>, NoLine>
    ensures { Reads words.now result }
{
    if words.is_silent() {
        return Ok(None);
    }
    let command = named(words.word(0)).ok_or(NoLine::Unknown)?;
    let line = rest(heap, command, words)?.ok_or(NoLine::Wrong(command))?;
    Ok(Some(line))
}

// The line of a command, by what follows it.
fn rest(heap: Global, command: Command, words: &Words<'_, '_>) -> Result<Option<Line>, AllocError>
    ensures { IfOk result (λ found. MatchOption found ((l : Line) → command_of l ≡ command → Rest words.now l → ⊥) (λ l. (command_of l ≡ command) × Rest words.now l)) }
{
    if command == Command::Carrier {
        return Ok(kind(words));
    }
    let Some(numbers) = words.numbers(heap)? else {
        return Ok(None);
    };
    Ok(counted(command, numbers.as_slice()))
}

fn kind(words: &Words<'_, '_>) -> Option<Line>
    ensures { MatchOption result ((l : Line) → command_of l ≡ carrier → Rest words.now l → ⊥) (λ l. (command_of l ≡ carrier) × Rest words.now l) }
{
    if words.len() != 2 {
        return None;
    }
    match words.word(1) {
        "letters" => Some(Line::Carrier(Kind::Letters)),
        "board" => Some(Line::Carrier(Kind::Board)),
        _ => None,
    }
}

// The line of a command that numbers follow.
fn counted(command: Command, ns: &[u64]) -> Option<Line>
    ensures { MatchOption result ((l : Line) → (command ≢ carrier) → command_of l ≡ command → numbers_of l ≢ ns.now) (λ l. (command_of l ≡ command) × (numbers_of l ≡ ns.now)) }
{
    match (command, ns) {
        (Command::Roster, &[n, t, faulty]) => Some(Line::Roster { n, t, faulty }),
        (Command::Put, &[seat, slot, code]) => Some(Line::Act(Act::Put { seat, slot, code })),
        (Command::Holds, &[seat, origin, slot]) => {
            Some(Line::Act(Act::Holds { seat, origin, slot }))
        }
        (Command::Move, &[address, kind, from, to, letter, origin, slot, code]) => {
            Some(Line::Act(Act::Move(Move {
                address,
                kind,
                from,
                to,
                letter,
                origin,
                slot,
                code,
            })))
        }
        (Command::Still, []) => Some(Line::Act(Act::Still)),
        (Command::Settle, []) => Some(Line::Settle),
        _ => None,
    }
}
