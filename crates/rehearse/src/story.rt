// A scenario's lines with their answers.
use crate::subject::Subject;
use anyhow::bail;
use roster::roster::Roster;
use scenario::line::Line;
use scenario::parse::parse;
use std::alloc::Global;

// The whole story of a scenario. Each `carrier` line begins a new subject.
pub fn tell(heap: Global, text: &str) -> anyhow::Result<String> {
    let mut story = String::new(heap);
    let mut subject = None;
    for (k, text) in text.lines().enumerate() {
        let number = k.saturating_add(1);
        let line = match parse(heap, text) {
            Ok(Some(line)) => line,
            Ok(None) => continue,
            Err(e) => bail!("line {number}: {e}"),
        };
        match (line, &mut subject) {
            (Line::Carrier(kind), _) => {
                if let Some(before) = subject.replace(Subject::new(heap, kind)) {
                    before.play(heap, &mut story)?;
                }
                writeln!(story, "{text}: made")?;
            }
            (Line::Roster { n, t, faulty }, Some(subject)) if subject.roster.is_none() => {
                match Roster::new(n, t, faulty) {
                    Ok(roster) => {
                        subject.roster = Some(roster);
                        writeln!(story, "{text}: made")?;
                    }
                    Err(e) => writeln!(story, "{text}: {e}")?,
                }
            }
            (Line::Act(_) | Line::Settle, Some(subject)) if subject.roster.is_some() => {
                subject.add(text, line)?;
            }
            _ => bail!("line {number}: expected `carrier`, then `roster`, then acts"),
        }
    }
    if let Some(last) = subject {
        last.play(heap, &mut story)?;
    }
    Ok(story)
}
