// Lines that are jobs, lines that are none, and what is printed of each.
use crate::answer::perform;
use crate::job::NoJob;
use crate::parse::parse;
use std::test::Fail;

#[test]
fn jobs_are_answered(rt: HostRuntime) -> Result<(), Fail> {
    let cases = [
        (
            "write 1 1 1 5012000",
            "01000101020001010300010104000800000000004C7A20",
        ),
        (
            "read 01000101020001010300010104000800000000004c7a20",
            "kind 1 origin 1 slot 1 code 5012000",
        ),
        (
            "\twrite 3 11 1 0",
            "denied 5: a seat, letter kind, slot or origin is out of range",
        ),
        ("read 0100FF", "denied 12 at 2: the bytes are no letter"),
    ];
    for (line, text) in cases {
        let Some(job) = parse(rt.alloc(), line)? else {
            return Err(Fail::new("no job"));
        };
        let answer = perform(&job).to_string(rt.alloc())?;
        assert_eq!(rt; answer.as_str(), text);
    }
    Ok(())
}

#[test]
fn other_lines_are_skipped_or_refused(rt: HostRuntime) -> Result<(), Fail> {
    for line in ["", "  ", "# write 1 1 1 1", "#write"] {
        assert!(rt; parse(rt.alloc(), line)?.is_none());
    }
    let cases = [
        ("hello", NoJob::Unknown),
        ("Write 1 1 1 1", NoJob::Unknown),
        ("write 1 1 1", NoJob::Numbers),
        ("write 1 1 1 1 1", NoJob::Numbers),
        ("write 1 1 1 18446744073709551616", NoJob::Numbers),
        ("write 1 1 +1 1", NoJob::Numbers),
        ("read", NoJob::Hex),
        ("read 0", NoJob::Hex),
        ("read 0x01", NoJob::Hex),
        ("read 01 02", NoJob::Hex),
    ];
    for (line, refusal) in cases {
        assert_eq!(rt; parse(rt.alloc(), line).err(), Some(refusal));
    }
    let words = NoJob::Unknown.to_string(rt.alloc())?;
    assert_eq!(rt;
        words.as_str(),
        "expected `write KIND ORIGIN SLOT CODE` or `read HEX`"
    );
    Ok(())
}
