// Writes a letter as bytes.
ghost use Rattle.std.specs.Prelude.{◌≡◌, ◌≤◌, true, ◌++◌, length, drop, is_ok, if◌then◌else◌};
ghost use Rattle.wire.specs.Letters.{bytes_of, one_to, proper};
ghost use Rattle.wire.specs.Written.{written};

use crate::letter::{LETTER_LEN, Letter};
use roster::denial::Denial;
use std::simd::prelude::*;

fn from_one_to(most: u64, n: u64) -> bool
    ensures { result ≡ one_to most n }
{
    1 <= n && n <= most
}

fn in_range(letter: Letter) -> bool
    ensures { result ≡ proper letter }
{
    from_one_to(3, letter.kind) && from_one_to(10, letter.origin) && from_one_to(2, letter.slot)
}

// The tags and lengths of a letter, with 0 for its numbers.
const BLANK: [u8; 16] = [1, 0, 1, 0, 2, 0, 1, 0, 3, 0, 1, 0, 4, 0, 8, 0];

// Puts a letter in front of the buffer: the tags and lengths by one wide store, then the code before the smaller numbers,
// since its eight bytes become one store there.
fn fill(letter: Letter, buffer: &mut [u8])
    requires ranges { proper letter ≡ true }
    requires room { 23 ≤ length buffer.old }
    ensures { buffer.new ≡ bytes_of letter ++ drop 23 buffer.old }
{
    u8x16::from_array(BLANK).copy_to_slice(buffer);
    u64x1::splat(letter.code.swap_bytes())
        .to_le_bytes()
        .copy_to_slice(&mut buffer[15..23]);
    buffer[3] = letter.kind as u8;
    buffer[7] = letter.origin as u8;
    buffer[11] = letter.slot as u8;
}

// Writes a letter in front of the buffer and leaves the bytes behind it. A denied call leaves them all.
pub fn write(letter: Letter, buffer: &mut [u8]) -> Result<(), Denial>
    ensures value { result ≡ written letter (length buffer.old) }
    ensures after { buffer.new ≡ (if is_ok result then bytes_of letter ++ drop 23 buffer.old else buffer.old) }
{
    if !in_range(letter) {
        return Err(Denial::OutOfRange);
    }
    if buffer.len() < LETTER_LEN {
        return Err(Denial::ShortBuffer);
    }
    fill(letter, buffer);
    Ok(())
}
