// Four seats, of which seat 4 is faulty.
use crate::board::Board;
use carrier::carrier::Carrier;
use roster::denial::Denial;
use roster::moves::Move;
use roster::roster::Roster;
use std::test::Fail;

fn board() -> Result<Board, Denial> {
    Ok(Board::new(Roster::new(4, 1, 0b1000)?))
}

fn stray(from: u64, slot: u64, code: u64) -> Move {
    Move {
        address: 0,
        kind: 1,
        from,
        to: 0,
        letter: 0,
        origin: 0,
        slot,
        code,
    }
}

fn handed(from: u64, to: u64, slot: u64) -> Move {
    Move {
        address: 0,
        kind: 2,
        from,
        to,
        letter: 0,
        origin: 0,
        slot,
        code: 0,
    }
}

#[test]
fn a_put_is_held_once_handed_over(rt: HostRuntime) -> Result<(), Fail> {
    let mut board = board()?;
    board.put(1, 2, 77)?;
    assert_eq!(rt; board.step(handed(1, 2, 1)), Err(Denial::NothingDue));
    board.step(handed(1, 2, 2))?;
    assert_eq!(rt; board.holds(2, 1, 2), Ok(Some(77)));
    assert_eq!(rt; board.holds(3, 1, 2), Ok(None));
    Ok(())
}

#[test]
fn nothing_is_done_twice(rt: HostRuntime) -> Result<(), Fail> {
    let mut board = board()?;
    board.put(1, 2, 77)?;
    assert_eq!(rt; board.put(1, 2, 78), Err(Denial::PutBefore));
    board.step(handed(1, 2, 2))?;
    assert_eq!(rt; board.step(handed(1, 2, 2)), Err(Denial::HandedBefore));
    Ok(())
}

#[test]
fn only_a_faulty_seat_strays(rt: HostRuntime) -> Result<(), Fail> {
    let mut board = board()?;
    assert_eq!(rt; board.put(4, 1, 5), Err(Denial::FaultySeat));
    assert_eq!(rt; board.step(stray(1, 1, 5)), Err(Denial::FaultySeat));
    board.step(stray(4, 1, 5))?;
    board.step(handed(4, 3, 1))?;
    assert_eq!(rt; board.holds(3, 4, 1), Ok(Some(5)));
    Ok(())
}

#[test]
fn any_numbers_may_be_asked(rt: HostRuntime) -> Result<(), Fail> {
    let mut board = board()?;
    let far = u64::MAX;
    assert_eq!(rt; board.put(far, 1, far), Err(Denial::OutOfRange));
    assert_eq!(rt; board.holds(1, far, far), Err(Denial::OutOfRange));
    assert_eq!(rt; board.step(handed(1, far, 1)), Err(Denial::OutOfRange));
    assert!(rt; board.is_untouched());
    Ok(())
}

#[test]
fn still_when_all_is_handed(rt: HostRuntime) -> Result<(), Fail> {
    let mut board = board()?;
    assert!(rt; board.is_still());
    board.put(1, 1, 9)?;
    for seat in [1, 2, 3] {
        assert!(rt; !board.is_still());
        board.step(handed(1, seat, 1))?;
    }
    assert!(rt; board.is_still());
    Ok(())
}
