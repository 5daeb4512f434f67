// The letter check and the writer, for firmware in C. Numbers and byte slices only: a slice is a pointer and a length there.
#![tactic(auto)]

ghost use Rattle.std.specs.Prelude.{◌≡◌, ℕ, ◌++◌, length, drop, is_ok, if◌then◌else◌};
ghost use Rattle.firmware.specs.Answers.{Answers, letter_with, number_in};
ghost use Rattle.roster.specs.declared.denial.Denial.TheVariants.{NoLetter};
ghost use Rattle.wire.specs.Letters.{bytes_of};
ghost use Rattle.wire.specs.Written.{written};

use roster::denial::Denial;
use wire::letter::{LETTER_LEN, Letter};
use wire::{reader, writer};

// What the check answers: a denial's number, or 0, and how many bytes from the front begin some letter.
#[repr(C)]
#[derive(Clone, Copy)]
pub struct Checked {
    pub denial: u64,
    pub place: u64,
}

// Whether the bytes are a letter.
#[unsafe(no_mangle)]
pub extern "C" fn goxumaphi_letter_check(bytes: &[u8]) -> Checked
    ensures { Answers bytes.now result }
{
    match reader::read(bytes) {
        Ok(_) => Checked {
            denial: 0,
            place: LETTER_LEN as u64,
        },
        Err(e) => Checked {
            denial: u64::from(e.number()),
            place: place_of(e),
        },
    }
}

fn place_of(e: Denial) -> u64
    ensures { (place : ℕ) → e ≡ NoLetter place → result ≡ place }
{
    match e {
        Denial::NoLetter(place) => place as u64,
        _ => 0,
    }
}

// Writes a letter into the first 23 bytes of the buffer, and answers 0; or answers a denial's number and changes nothing.
#[unsafe(no_mangle)]
pub extern "C" fn goxumaphi_letter_write(
    kind: u64,
    origin: u64,
    slot: u64,
    code: u64,
    buffer: &mut [u8],
) -> u64
    ensures value { result ≡ number_in (written (letter_with kind origin slot code) (length buffer.old)) }
    ensures after { buffer.new ≡ (if is_ok (written (letter_with kind origin slot code) (length buffer.old)) then bytes_of (letter_with kind origin slot code) ++ drop 23 buffer.old else buffer.old) }
{
    match writer::write(
        Letter {
            kind,
            origin,
            slot,
            code,
        },
        buffer,
    ) {
        Ok(()) => 0,
        Err(e) => u64::from(e.number()),
    }
}
