// A load for the comparison of speed: whole broadcasts on the letters carrier.
#![tactic(auto)]

mod load;

use anyhow::{anyhow, bail};
use load::play;
use program::end::ended;
use roster::roster::Roster;
use script::number::number;
use std::env;
use std::process::ExitCode;

const USAGE: &str =
    "expected N T ROUNDS: N seats, of which T may be faulty, and how often each puts for both slots";

fn main(rt: HostRuntime) -> anyhow::Result<ExitCode> {
    ended(&rt, "pace", run(&rt))
}

fn run(rt: &HostRuntime) -> anyhow::Result<()> {
    let mut args = env::args(rt)?;
    let _name = args.next();
    let n = wanted(args.next())?;
    let t = wanted(args.next())?;
    let rounds = wanted(args.next())?;
    match Roster::new(n, t, 0) {
        Ok(roster) => println!(rt; "{}", play(roster, rounds))?,
        Err(e) => bail!("{e}"),
    }
    Ok(())
}

fn wanted(arg: Option<String>) -> anyhow::Result<u64> {
    arg.and_then(|word| number(word.as_str()))
        .ok_or_else(|| anyhow!(USAGE))
}
