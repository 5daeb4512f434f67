// The worked examples, and words for people.
use crate::denial::Denial;
use crate::roster::Roster;
use crate::size::Size;
use std::test::Fail;

#[test]
fn the_first_check_that_fails_denies(rt: HostRuntime) {
    assert_eq!(rt; Roster::new(9, 3, 0), Err(Denial::RosterSize));
    assert_eq!(rt; Roster::new(0, 0, 0), Err(Denial::RosterSize));
    assert_eq!(rt; Roster::new(11, 3, 0), Err(Denial::RosterSize));
    assert_eq!(rt;
        Roster::new(u64::MAX, u64::MAX, u64::MAX),
        Err(Denial::RosterSize)
    );
    assert_eq!(rt; Roster::new(4, 1, 3), Err(Denial::FaultySet));
    assert_eq!(rt; Roster::new(4, 1, 16), Err(Denial::FaultySet));
    assert_eq!(rt; Roster::new(4, 1, 1 << 63), Err(Denial::FaultySet));
}

#[test]
fn a_roster_knows_its_sound_seats(rt: HostRuntime) -> Result<(), Fail> {
    let roster = Roster::new(10, 3, 0b10_0000_0101)?;
    for seat in [2, 4, 5, 6, 7, 8, 9] {
        assert!(rt; roster.is_sound(seat));
    }
    for seat in [0, 1, 3, 10, 11, u64::MAX] {
        assert!(rt; !roster.is_sound(seat));
    }
    Ok(())
}

#[test]
fn quorums_of_echoes(rt: HostRuntime) -> Result<(), Fail> {
    assert_eq!(rt; Size::new(5, 1)?.echo_quorum(), 4);
    assert_eq!(rt; Size::new(7, 2)?.echo_quorum(), 5);
    Ok(())
}

#[test]
fn denials_have_words(rt: HostRuntime) -> Result<(), Fail> {
    let text = format!(in rt.alloc(); "{}; {}", Denial::FaultySet, Denial::NoLetter(7))?;
    assert!(rt;
        text.as_str()
            == "denied 2: the faulty set has a seat beyond n, or over t seats; denied 12 at 7: the bytes are no letter"
    );
    Ok(())
}
