#![tactic(auto)]

// Reads known answers from standard input, one to a line, works each out and prints whether it agrees.
use answers::reading::without_end;
use std::io::{BufRead, BufReader};
use std::process::ExitCode;
use verdicts::verdict::{Tally, judge};

// Reads all lines and prints what there is to say of each.
fn judge_lines(rt: &HostRuntime) -> anyhow::Result<Tally> {
    let mut input = BufReader::new(rt.alloc(), rt.stdin())?;
    let mut line = Vec::new(rt.alloc());
    let mut tally = Tally::new();
    // nothing says that an input ends
    for number in 1..u64::MAX {
        line.clear();
        if input.read_until(b'\n', &mut line)? == 0 {
            break;
        }
        if let Some(verdict) = judge(without_end(line.as_slice())) {
            println!(rt; "{number} {verdict}")?;
            tally.count(verdict);
        }
    }
    println!(rt; "{tally}")?;
    Ok(tally)
}

// Lines that differ, or an error, of which nothing is printed, end the program with status 1.
fn main(rt: HostRuntime) -> ExitCode {
    match judge_lines(&rt) {
        Ok(tally) if tally.differ == 0 => ExitCode::SUCCESS,
        _ => ExitCode::FAILURE,
    }
}
