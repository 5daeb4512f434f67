// What a line may ask for.
ghost use Rattle.std.specs.Prelude.{◌≡◌, Some};
ghost use Rattle.jobs.specs.Expected.{expected, no_hex};
ghost use Rattle.jobs.specs.declared.job.NoJob.TheVariants.{Memory};

use script::hex::NoHex;
use std::alloc::AllocError;
use std::fmt;
use wire::letter::Letter;

#[derive(Drop)]
pub enum Job {
    // a letter to be written
    Write(Letter),
    // bytes to be read as a letter
    Read(Vec<u8>),
}

// Why a line is no job.
#[derive(Clone, Copy, PartialEq, Eq, Debug)]
pub enum NoJob {
    // its first word names none
    Unknown,
    // what follows `write` is not four numbers
    Numbers,
    // what follows `read` is not one word of hex
    Hex,
    // there is no memory to read it
    Memory,
}

impl From<AllocError> for NoJob {
    ghost from_gives = { λ _ e. e ≡ Memory };

    fn from(_e: AllocError) -> NoJob {
        NoJob::Memory
    }
}

impl From<NoHex> for NoJob {
    ghost from_gives = { λ x e. e ≡ no_hex x };

    fn from(e: NoHex) -> NoJob {
        match e {
            NoHex::Digit | NoHex::Odd => NoJob::Hex,
            NoHex::Memory => NoJob::Memory,
        }
    }
}

// What was expected in place of the line.
impl fmt::Display for NoJob {
    ghost output = { λ e. Some (expected e) };

    fn fmt<W: fmt::Write>(&self, f: &mut fmt::Formatter<W>) -> fmt::Result {
        f.write_str(match self {
            NoJob::Unknown => "expected `write KIND ORIGIN SLOT CODE` or `read HEX`",
            NoJob::Numbers =>
                "expected `write KIND ORIGIN SLOT CODE`, four decimal numbers below 2^64",
            NoJob::Hex => "expected `read HEX`, one word of an even number of hex digits",
            NoJob::Memory => "there is no memory to read it",
        })
    }
}
