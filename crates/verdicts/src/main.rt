// Judges every rule of a sheet over the image of a log: standard input holds the one, then the other.
#![tactic(auto)]

use judging::working::JudgingRow;
use meaning::verdict::Verdict;
use reports::input::MOST_BYTES;
use reports::line::Line;
use reports::report::report;
use rules::limits::MOST_ROWS;
use std::io;
use std::io::Read;

// The input, or so much of it that it is seen to be too long.
fn read_input(rt: &HostRuntime) -> io::Result<Vec<u8>> {
    let mut bytes = Vec::new(rt.alloc());
    rt.stdin()
        .take(MOST_BYTES as u64 + 1)
        .read_to_end(&mut bytes)?;
    Ok(bytes)
}

// A line for each rule.
fn print_verdicts(rt: &HostRuntime, verdicts: &[Verdict]) -> io::Result<()> {
    for (rule, &verdict) in verdicts.iter().enumerate() {
        rt.println(Line { rule, verdict })?;
    }
    Ok(())
}

fn main(rt: HostRuntime) -> io::Result<()> {
    let bytes = read_input(&rt)?;
    let mut work = [JudgingRow::Negation; MOST_ROWS];
    match report(bytes.as_slice(), &mut work) {
        Ok(verdicts) => print_verdicts(&rt, verdicts.as_slice()),
        Err(refusal) => rt.println(refusal),
    }
}
