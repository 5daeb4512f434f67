// Lines that ask for something, and lines that do not.
use crate::command::Command;
use crate::line::{Line, NoLine};
use crate::parse::parse;
use carrier::history::Act;
use std::test::Fail;

#[test]
fn moves_have_eight_numbers(rt: HostRuntime) -> Result<(), Fail> {
    let Some(Line::Act(Act::Move(by))) = parse(
        rt.alloc(),
        "move 1 2 3 4 5 6 7 18446744073709551615",
    )?
    else {
        return Err(Fail::new("no move"));
    };
    assert_eq!(rt; by.address, 1);
    assert_eq!(rt; by.kind, 2);
    assert_eq!(rt; by.from, 3);
    assert_eq!(rt; by.to, 4);
    assert_eq!(rt; by.letter, 5);
    assert_eq!(rt; by.origin, 6);
    assert_eq!(rt; by.slot, 7);
    assert_eq!(rt; by.code, u64::MAX);
    Ok(())
}

#[test]
fn other_lines_are_refused(rt: HostRuntime) -> Result<(), Fail> {
    let cases = [
        ("puts 1 1 1", NoLine::Unknown),
        ("put 1 1", NoLine::Wrong(Command::Put)),
        ("put 1 1 1 1", NoLine::Wrong(Command::Put)),
        ("holds 1 x 1", NoLine::Wrong(Command::Holds)),
        ("move 1 2 3", NoLine::Wrong(Command::Move)),
        ("carrier pigeon", NoLine::Wrong(Command::Carrier)),
        ("roster 4 1 -1", NoLine::Wrong(Command::Roster)),
        ("still 1", NoLine::Wrong(Command::Still)),
        ("settle now", NoLine::Wrong(Command::Settle)),
    ];
    for (line, refusal) in cases {
        assert_eq!(rt; parse(rt.alloc(), line).err(), Some(refusal));
    }
    let words = NoLine::Wrong(Command::Put).to_string(rt.alloc())?;
    assert_eq!(rt;
        words.as_str(),
        "expected `put SEAT SLOT CODE`, numbers decimal and below 2^64"
    );
    Ok(())
}
