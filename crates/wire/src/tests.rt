use crate::letter::{LETTER_LEN, Letter};
use crate::reader::read;
use crate::writer::write;
use roster::denial::Denial;
use std::test::Fail;

const LETTER: Letter = Letter {
    kind: 1,
    origin: 1,
    slot: 1,
    code: 5012000,
};

const BYTES: &[u8; LETTER_LEN] =
    b"\x01\0\x01\x01\x02\0\x01\x01\x03\0\x01\x01\x04\0\x08\0\0\0\0\0\x4C\x7A\x20";

// The place that a refusal names.
fn place(bytes: &[u8]) -> Option<usize> {
    match read(bytes) {
        Err(Denial::NoLetter(place)) => Some(place),
        _ => None,
    }
}

fn answer(letter: Letter) -> Result<(), Denial> {
    let mut buffer = [0u8; LETTER_LEN];
    write(letter, &mut buffer)
}

#[test]
fn both_ways(rt: HostRuntime) -> Result<(), Fail> {
    let mut buffer = [7u8; 24];
    write(LETTER, &mut buffer)?;
    assert_eq!(rt; &buffer[0..LETTER_LEN], BYTES.as_slice());
    assert_eq!(rt; buffer[LETTER_LEN], 7);
    assert_eq!(rt; place(&buffer), Some(LETTER_LEN));
    assert_eq!(rt; read(BYTES)?.letter(), LETTER);
    Ok(())
}

#[test]
fn damaged(rt: HostRuntime) {
    let whole = *BYTES;
    for at in 0..15 {
        let mut bytes = whole;
        bytes[at] = 0xFF;
        assert_eq!(rt; place(&bytes), Some(at));
    }
    for n in 0..LETTER_LEN {
        assert_eq!(rt; place(&whole[0..n]), Some(n));
    }
}

#[test]
fn denied(rt: HostRuntime) {
    let mut short = [7u8; 22];
    assert_eq!(rt; write(LETTER, &mut short), Err(Denial::ShortBuffer));
    assert_eq!(rt; short, [7u8; 22]);
    let letters = [
        Letter { kind: 0, ..LETTER },
        Letter { kind: 4, ..LETTER },
        Letter {
            origin: 0,
            ..LETTER
        },
        Letter {
            origin: 11,
            ..LETTER
        },
        Letter { slot: 0, ..LETTER },
        Letter { slot: 3, ..LETTER },
    ];
    for letter in letters {
        assert_eq!(rt; answer(letter), Err(Denial::OutOfRange));
    }
}
