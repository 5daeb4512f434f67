// From a line to a job.
ghost use Rattle.std.specs.Prelude.{◌≡◌, [], ◌∷◌, length, IfOk, MatchOption, ◌≢◌};
ghost use Rattle.jobs.specs.Jobs.{Asked, FourNumbers, Hexed, Parsed};

use crate::job::{Job, NoJob};
use script::hex;
use script::line::Words;
use script::words::words;
use std::alloc::{AllocError, Global};
use wire::letter::Letter;

// The job that the line asks for, and none for an empty line or a comment.
pub fn parse(heap: Global, line: &str) -> Result<Option<Job>, NoJob>
    ensures { Parsed line.now result }
{
    let words = words(heap, line)?;
    asked(heap, &Words::new(words.as_slice()))
}

// What the words ask for.
fn asked(heap: Global, words: &Words<'_, '_>) -> Result<Option<Job>, NoJob>
    ensures { Asked words.now result }
{
    if words.is_silent() {
        return Ok(None);
    }
    match words.word(0) {
        "write" => {
            let letter = four_numbers(heap, words)?.ok_or(NoJob::Numbers)?;
            Ok(Some(Job::Write(letter)))
        }
        "read" => Ok(Some(Job::Read(one_hex(heap, words)?))),
        _ => Err(NoJob::Unknown),
    }
}

// The letter whose numbers follow the first word.
fn four_numbers(heap: Global, words: &Words<'_, '_>) -> Result<Option<Letter>, AllocError>
    ensures { IfOk result (λ found. MatchOption found ((l : Letter) → FourNumbers words.now l → ⊥) (FourNumbers words.now)) }
{
    let Some(numbers) = words.numbers(heap)? else {
        return Ok(None);
    };
    Ok(four(numbers.as_slice()))
}

fn four(ns: &[u64]) -> Option<Letter>
    ensures { MatchOption result (length ns.now ≢ 4) (λ l. l.kind ∷ l.origin ∷ l.slot ∷ l.code ∷ [] ≡ ns.now) }
{
    let &[kind, origin, slot, code] = ns else {
        return None;
    };
    Some(Letter {
        kind,
        origin,
        slot,
        code,
    })
}

// The bytes that follow the first word in hex.
fn one_hex(heap: Global, words: &Words<'_, '_>) -> Result<Vec<u8>, NoJob>
    ensures { Hexed words.now result }
{
    if words.len() != 2 {
        return Err(NoJob::Hex);
    }
    Ok(hex::decode(heap, words.word(1))?)
}
