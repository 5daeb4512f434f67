// Runs of a carrier of letters.
use crate::letters::Letters;
use broadcast::cell::Cell;
use carrier::carrier::Carrier;
use roster::denial::Denial;
use roster::moves::{Move, MoveKind};
use roster::roster::Roster;
use std::test::Fail;

const INIT: u64 = 1;

const ECHO: u64 = 2;

const READY: u64 = 3;

// A letter of the kind for an origin's slot 1, handed over.
fn handed(from: u64, to: u64, letter: u64, origin: u64) -> Move {
    Move {
        address: 0,
        kind: MoveKind::HandOver.into(),
        from,
        to,
        letter,
        origin,
        slot: 1,
        code: 0,
    }
}

// A letter of a faulty seat for an origin's slot 1.
fn stray(from: u64, to: u64, letter: u64, origin: u64, code: u64) -> Move {
    Move {
        address: 0,
        kind: MoveKind::Stray.into(),
        from,
        to,
        letter,
        origin,
        slot: 1,
        code,
    }
}

// Every letter of a kind that is there, to everyone.
fn hand_all(letters: &mut Letters<'_>, letter: u64, origin: u64) {
    for from in 1..6 {
        for to in 1..6 {
            let _ = letters.step(handed(from, to, letter, origin));
        }
    }
}

// A cell that is not blank.
fn marked() -> Cell {
    let mut cell = Cell::blank();
    cell.send_init(9);
    cell
}

#[test]
fn a_seat_holds_on_enough_letters(rt: HostRuntime) -> Result<(), Fail> {
    let mut cells = [Cell::blank(); 50];
    let mut letters = Letters::new(Roster::new(5, 1, 0)?, &mut cells);
    letters.put(1, 1, 7)?;
    assert_eq!(rt; letters.put(1, 1, 8), Err(Denial::PutBefore));
    assert!(rt; !letters.is_still());
    hand_all(&mut letters, INIT, 1);
    for from in 1..4 {
        letters.step(handed(from, 2, ECHO, 1))?;
    }
    assert_eq!(rt;
        letters.step(handed(2, 3, READY, 1)),
        Err(Denial::NothingDue)
    );
    letters.step(handed(4, 2, ECHO, 1))?;
    assert_eq!(rt;
        letters.step(handed(4, 2, ECHO, 1)),
        Err(Denial::HandedBefore)
    );
    letters.step(handed(2, 3, READY, 1))?;
    hand_all(&mut letters, ECHO, 1);
    letters.step(handed(1, 3, READY, 1))?;
    assert_eq!(rt; letters.holds(3, 1, 1)?, None);
    letters.step(handed(3, 3, READY, 1))?;
    assert_eq!(rt; letters.holds(3, 1, 1)?, Some(7));
    hand_all(&mut letters, READY, 1);
    assert!(rt; letters.is_still());
    assert_eq!(rt; letters.holds(5, 1, 1)?, Some(7));
    Ok(())
}

#[test]
fn two_inits_of_a_faulty_seat_give_one_code(rt: HostRuntime) -> Result<(), Fail> {
    let mut cells = [Cell::blank(); 32];
    let mut letters = Letters::new(Roster::new(4, 1, 0b1000)?, &mut cells);
    letters.step(stray(4, 1, INIT, 4, 1))?;
    letters.step(stray(4, 2, INIT, 4, 2))?;
    letters.step(stray(4, 3, INIT, 4, 2))?;
    assert_eq!(rt;
        letters.step(stray(3, 1, ECHO, 4, 1)),
        Err(Denial::FaultySeat)
    );
    hand_all(&mut letters, ECHO, 4);
    assert!(rt; letters.is_still());
    assert_eq!(rt; letters.holds(2, 4, 1)?, None);
    letters.step(stray(4, 1, ECHO, 4, 2))?;
    letters.step(stray(4, 2, READY, 4, 2))?;
    hand_all(&mut letters, READY, 4);
    hand_all(&mut letters, READY, 4);
    assert!(rt; letters.is_still());
    for seat in 1..4 {
        assert_eq!(rt; letters.holds(seat, 4, 1)?, Some(2));
    }
    Ok(())
}

#[test]
fn a_list_one_cell_short_is_left_alone(rt: HostRuntime) -> Result<(), Fail> {
    let mut cells = [marked(); 31];
    let mut letters = Letters::new(Roster::new(4, 1, 0)?, &mut cells);
    assert!(rt; !letters.is_matched());
    assert_eq!(rt; letters.put(1, 1, 7), Err(Denial::IllMatched));
    assert_eq!(rt;
        letters.step(handed(1, 2, INIT, 1)),
        Err(Denial::IllMatched)
    );
    assert!(rt; !letters.is_still() && letters.is_untouched());
    assert_eq!(rt; cells[0].put, Some(9));
    assert_eq!(rt; cells[30].put, Some(9));
    Ok(())
}

#[test]
fn a_cell_beyond_those_needed_is_left_alone(rt: HostRuntime) -> Result<(), Fail> {
    let mut cells = [marked(); 33];
    let mut letters = Letters::new(Roster::new(4, 1, 0)?, &mut cells);
    letters.put(4, 2, 7)?;
    assert_eq!(rt; cells[31].put, Some(7));
    assert_eq!(rt; cells[32].put, Some(9));
    Ok(())
}
