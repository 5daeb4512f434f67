// From a job to its answer.
ghost use Rattle.jobs.specs.Answers.{Answered, said};
ghost use Rattle.std.specs.Prelude.{Some};

use crate::job::Job;
use roster::denial::Denial;
use script::hex::Hex;
use std::fmt;
use wire::letter::{LETTER_LEN, Letter};
use wire::{reader, writer};

// A refusal is one of the answers, and not the error of a Result: it is printed behind the job as the others are.
#[derive(Clone, Copy)]
pub enum Answer {
    // of a job to write
    Bytes([u8; LETTER_LEN]),
    // of a job to read
    Numbers(Letter),
    Denied(Denial),
}

pub fn perform(job: &Job) -> Answer
    ensures { Answered job.now result }
{
    match job {
        Job::Write(letter) => {
            let mut bytes = [0; LETTER_LEN];
            match writer::write(*letter, &mut bytes) {
                Ok(()) => Answer::Bytes(bytes),
                Err(denial) => Answer::Denied(denial),
            }
        }
        Job::Read(bytes) => match reader::read(bytes.as_slice()) {
            Ok(fields) => Answer::Numbers(fields.letter()),
            Err(denial) => Answer::Denied(denial),
        },
    }
}

impl fmt::Display for Answer {
    ghost output = { λ a. Some (said a) };

    fn fmt<W: fmt::Write>(&self, f: &mut fmt::Formatter<W>) -> fmt::Result {
        match self {
            Answer::Bytes(bytes) => Hex(bytes).fmt(f),
            Answer::Numbers(
                Letter {
                    kind,
                    origin,
                    slot,
                    code,
                },
            ) => write!(f, "kind {kind} origin {origin} slot {slot} code {code}"),
            Answer::Denied(denial) => denial.fmt(f),
        }
    }
}
