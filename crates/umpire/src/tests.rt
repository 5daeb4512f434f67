// Four seats, of which seat 4 is faulty; two equal puts make a ruling, and three puts at the latest.
use crate::umpire::Umpire;
use agreement::agreement::Agreement;
use roster::decision::Decision;
use roster::denial::Denial;
use roster::moves::Move;
use roster::roster::Roster;
use std::test::Fail;

fn umpire(largest: u64) -> Result<Umpire, Denial> {
    Ok(Umpire::new(Roster::new(4, 1, 0b1000)?, largest))
}

// Any numbers where the kind uses none.
fn stray(from: u64, code: u64) -> Move {
    Move {
        address: 0,
        kind: 1,
        from,
        to: u64::MAX,
        letter: u64::MAX,
        origin: u64::MAX,
        slot: u64::MAX,
        code,
    }
}

fn given(to: u64) -> Move {
    Move {
        address: 0,
        kind: 2,
        from: u64::MAX,
        to,
        letter: u64::MAX,
        origin: u64::MAX,
        slot: u64::MAX,
        code: u64::MAX,
    }
}

#[test]
fn a_code_is_ruled_as_two_have_put_it(rt: HostRuntime) -> Result<(), Fail> {
    let mut umpire = umpire(9)?;
    umpire.put(1, 7)?;
    umpire.put(2, 9)?;
    assert_eq!(rt; umpire.step(given(1)), Err(Denial::NothingDue));
    umpire.put(3, 7)?;
    assert_eq!(rt; umpire.decision(1), Ok(None));
    umpire.step(given(1))?;
    assert_eq!(rt; umpire.step(given(1)), Err(Denial::HandedBefore));
    assert_eq!(rt; umpire.decision(1), Ok(Some(Decision::Code(7))));
    Ok(())
}

#[test]
fn a_ruling_stays(rt: HostRuntime) -> Result<(), Fail> {
    let mut umpire = umpire(9)?;
    umpire.put(1, 7)?;
    umpire.put(2, 8)?;
    umpire.put(3, 9)?;
    umpire.step(given(1))?;
    umpire.step(stray(4, 7))?;
    umpire.step(given(2))?;
    assert_eq!(rt; umpire.decision(1), Ok(Some(Decision::Nothing)));
    assert_eq!(rt; umpire.decision(2), Ok(Some(Decision::Nothing)));
    Ok(())
}

#[test]
fn a_faulty_seat_is_counted(rt: HostRuntime) -> Result<(), Fail> {
    let mut umpire = umpire(9)?;
    umpire.step(stray(4, 5))?;
    umpire.put(2, 5)?;
    for seat in [1, 2, 3] {
        assert!(rt; !umpire.is_still());
        umpire.step(given(seat))?;
        assert_eq!(rt; umpire.decision(seat), Ok(Some(Decision::Code(5))));
    }
    assert!(rt; umpire.is_still());
    Ok(())
}

#[test]
fn puts_are_denied_in_order(rt: HostRuntime) -> Result<(), Fail> {
    let mut umpire = umpire(9)?;
    assert_eq!(rt; umpire.put(u64::MAX, u64::MAX), Err(Denial::OutOfRange));
    assert_eq!(rt; umpire.put(4, u64::MAX), Err(Denial::FaultySeat));
    assert_eq!(rt; umpire.put(1, u64::MAX), Err(Denial::CodeTooLarge));
    assert!(rt; umpire.is_untouched());
    umpire.put(1, 9)?;
    assert_eq!(rt; umpire.put(1, 10), Err(Denial::CodeTooLarge));
    assert_eq!(rt; umpire.put(1, 8), Err(Denial::PutBefore));
    Ok(())
}

#[test]
fn moves_are_denied_in_order(rt: HostRuntime) -> Result<(), Fail> {
    let mut umpire = umpire(9)?;
    let mut odd = stray(0, u64::MAX);
    odd.address = 1;
    assert_eq!(rt; umpire.step(odd), Err(Denial::NoSuchAddress));
    odd.address = 0;
    odd.kind = 3;
    assert_eq!(rt; umpire.step(odd), Err(Denial::NoSuchAddress));
    assert_eq!(rt; umpire.step(stray(5, u64::MAX)), Err(Denial::OutOfRange));
    assert_eq!(rt; umpire.step(stray(1, u64::MAX)), Err(Denial::FaultySeat));
    assert_eq!(rt; umpire.step(stray(4, 10)), Err(Denial::CodeTooLarge));
    assert_eq!(rt; umpire.step(given(0)), Err(Denial::OutOfRange));
    assert_eq!(rt; umpire.step(given(4)), Err(Denial::FaultySeat));
    Ok(())
}

#[test]
fn one_code_is_no_choice(rt: HostRuntime) -> Result<(), Fail> {
    let mut umpire = umpire(0)?;
    assert_eq!(rt; umpire.put(u64::MAX, u64::MAX), Err(Denial::IllMatched));
    assert_eq!(rt; umpire.step(given(1)), Err(Denial::IllMatched));
    assert_eq!(rt; umpire.decision(1), Err(Denial::IllMatched));
    assert!(rt; !umpire.is_matched() && !umpire.is_still() && umpire.is_untouched());
    Ok(())
}
