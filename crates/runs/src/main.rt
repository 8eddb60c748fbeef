#![tactic(auto)]

// Reads runs of stacks from standard input, puts the calls of each and prints whether every answer and the medium's bytes
// at the end are those named there.
mod plan;
mod reading;
mod run;
mod stack;

use anyhow::anyhow;
use reading::{Line, read_line};
use run::{Failure, Run, Stage, Tally, Verdict};
use std::alloc::Global;
use std::io::{BufRead, BufReader};
use std::process::ExitCode;

// What a line says, if it says anything, and the stage after it. The last line may have no LF at its end.
fn read_at(heap: Global, stage: Stage, text: &str) -> anyhow::Result<Option<(Line, Stage)>> {
    let Some(line) = read_line(heap, text.strip_suffix('\n').unwrap_or(text))? else {
        return Ok(None);
    };
    let next = stage
        .after(&line)
        .ok_or_else(|| anyhow!("a line out of turn"))?;
    Ok(Some((line, next)))
}

// Reads all runs, and prints what there is to say of each.
fn judge(rt: &HostRuntime) -> anyhow::Result<Tally> {
    let mut input = BufReader::new(rt.alloc(), rt.stdin())?;
    let mut text = String::new(rt.alloc());
    let mut run = Run::new(rt.alloc(), 0);
    let mut stage = Stage::Outside;
    let mut tally = Tally {
        agree: 0,
        differ: 0,
    };
    // nothing says that an input ends
    for number in 1..u64::MAX {
        text.clear();
        if input.read_line(&mut text)? == 0 {
            break;
        }
        let (line, next) = match read_at(rt.alloc(), stage, text.as_str()) {
            Ok(Some(read)) => read,
            Ok(None) => continue,
            Err(e) => {
                println!(rt; "line {number}: {e}")?;
                return Err(e);
            }
        };
        stage = next;
        if let Some(verdict) = run.take(rt.alloc(), number, line)? {
            tell(rt, run.name, verdict)?;
            tally.count(verdict);
        }
    }
    if stage != Stage::Outside {
        let verdict = Err(Failure::Unfinished);
        tell(rt, run.name, verdict)?;
        tally.count(verdict);
    }
    Ok(tally)
}

fn tell(rt: &HostRuntime, name: u64, verdict: Verdict) -> anyhow::Result<()> {
    match verdict {
        Ok(calls) => println!(rt; "run {name} {calls} calls agree")?,
        Err(failure) => println!(rt; "run {name} {failure}")?,
    }
    Ok(())
}

// Judges all runs and prints how many agree.
fn judge_runs(rt: &HostRuntime) -> anyhow::Result<Tally> {
    let tally = judge(rt)?;
    println!(rt; "{} agree, {} differ", tally.agree, tally.differ)?;
    Ok(tally)
}

// Runs that differ, or an error, of which nothing is printed, end the program with status 1.
fn main(rt: HostRuntime) -> ExitCode {
    match judge_runs(&rt) {
        Ok(tally) if tally.differ == 0 => ExitCode::SUCCESS,
        _ => ExitCode::FAILURE,
    }
}
