// Rehearses a scenario: each act with its answer, so that the output tells the whole story.
#![tactic(auto)]

mod story;
mod subject;

use program::end::ended;
use program::help;
use std::env;
use std::io::Read;
use std::process::ExitCode;
use story::tell;

const HELP: &str = "rehearse: plays a scenario from standard input, one act a line

  carrier letters|board        what is rehearsed
  roster N T SET               N seats, T may be faulty, SET has bit k-1 for each faulty seat k
  put SEAT SLOT CODE           a sound seat's put
  move ADDRESS KIND FROM TO LETTER ORIGIN SLOT CODE
                               kind 1: a stray act of a faulty seat; kind 2: something is handed over
  holds SEAT ORIGIN SLOT       what the seat holds
  still                        is nothing on its way?
  settle                       hands over all that can be, until the carrier is still

The first two lines come first. Each line is printed with its answer: made, granted, denied N: words,
none or a code, yes or no, still. Empty lines and lines that begin with # are skipped.
A line that is no act ends the program with status 1, its number and what was expected.";

fn main(rt: HostRuntime) -> anyhow::Result<ExitCode> {
    ended(&rt, "rehearse", run(&rt))
}

fn run(rt: &HostRuntime) -> anyhow::Result<()> {
    if help::is_called(env::args(rt)?.nth(1))? {
        println!(rt; "{HELP}")?;
        return Ok(());
    }
    rehearse(rt)
}

fn rehearse(rt: &HostRuntime) -> anyhow::Result<()> {
    let heap = rt.alloc();
    let mut text = String::new(heap);
    rt.stdin().read_to_string(&mut text)?;
    let story = tell(heap, text.as_str())?;
    print!(rt; "{story}")?;
    Ok(())
}
