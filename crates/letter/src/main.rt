// The letter tool: one job a line on standard input, and its answer after it.
#![tactic(auto)]

use anyhow::bail;
use jobs::answer::perform;
use jobs::parse::parse;
use program::end::ended;
use program::help;
use std::env;
use std::io::{BufRead, BufReader};
use std::process::ExitCode;

const HELP: &str = "letter: writes and reads letters, one job a line on standard input

  write KIND ORIGIN SLOT CODE   the letter in upper-case hex
  read HEX                      kind K origin O slot S code C

KIND is 1 to 3 (INIT, ECHO, READY), ORIGIN 1 to 10, SLOT 1 or 2, CODE any number below 2^64.
Each answer follows its line and ': '. A job that is refused is answered
'denied N: words', and bytes that are no letter 'denied 12 at PLACE: words',
where PLACE counts from 0 and is the first wrong byte, or the length if bytes are only missing.
Empty lines and lines that begin with # are skipped.
A line that is no job ends the program with status 1, its number and what was expected.";

fn main(rt: HostRuntime) -> anyhow::Result<ExitCode> {
    ended(&rt, "letter", run(&rt))
}

fn run(rt: &HostRuntime) -> anyhow::Result<()> {
    if help::is_called(env::args(rt)?.nth(1))? {
        println!(rt; "{HELP}")?;
        return Ok(());
    }
    jobs(rt)
}

fn jobs(rt: &HostRuntime) -> anyhow::Result<()> {
    let heap = rt.alloc();
    for (k, line) in BufReader::new(heap, rt.stdin())?.lines(heap).enumerate() {
        let number = k.saturating_add(1);
        let line = match line {
            Ok(line) => line,
            Err(e) => bail!("line {number}: {e}"),
        };
        match parse(heap, line.as_str()) {
            Ok(None) => {}
            Ok(Some(job)) => {
                let answer = perform(&job);
                println!(rt; "{line}: {answer}")?;
            }
            Err(e) => bail!("line {number}: {e}"),
        }
    }
    Ok(())
}
