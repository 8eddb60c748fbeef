// A run: what its lines say, and what comes of it.
use crate::plan::{Layer, Medium, Wanted};
use crate::reading::{FILL, Line};
use crate::stack::{TooDeep, put};
use stacks::call::{Answer, Call, Entry};
use std::alloc::Global;
use std::fmt;

// Which lines of a run may come next.
#[derive(Clone, Copy, PartialEq, Eq)]
pub(crate) enum Stage {
    // the first one
    Outside,
    Medium,
    Layers,
    Calls,
}

impl Stage {
    // The stage after a line, if the line may come.
    pub(crate) fn after(self, line: &Line) -> Option<Stage> {
        match (self, line) {
            (Stage::Outside, Line::Run(_)) => Some(Stage::Medium),
            (Stage::Medium, Line::Medium(_)) => Some(Stage::Layers),
            (Stage::Layers, Line::Layer(_)) => Some(Stage::Layers),
            (Stage::Layers, Line::Stack { .. }) => Some(Stage::Calls),
            (Stage::Calls, Line::Call(_, _)) => Some(Stage::Calls),
            (Stage::Calls, Line::End(_)) => Some(Stage::Outside),
            _ => None,
        }
    }
}

// How many questions a stack's figures ask, before the calls.
const FIGURES: usize = 3;

// Why a run does not agree.
#[derive(Clone, Copy)]
pub(crate) enum Failure {
    // the first line that differs
    Differs(u64),
    TooDeep,
    // the input ends before the run does
    Unfinished,
}

impl From<TooDeep> for Failure {
    fn from(_: TooDeep) -> Failure {
        Failure::TooDeep
    }
}

// What there is to say of a run: in how many calls it agrees, beside its figures and the bytes at the end.
pub(crate) type Verdict = Result<usize, Failure>;

// How many runs agree and how many do not. One tally for these and for lines (`verdicts`) would count bools,
// and stand on the crates of known answers.
#[derive(Clone, Copy)]
pub(crate) struct Tally {
    pub(crate) agree: u64,
    pub(crate) differ: u64,
}

impl Tally {
    pub(crate) fn count(&mut self, verdict: Verdict) {
        let counted = match verdict {
            Ok(_) => &mut self.agree,
            Err(_) => &mut self.differ,
        };
        *counted = counted.saturating_add(1);
    }
}

// A stack from the lowest store up, the calls, and the answers that they must have, each with its line's number. The calls
// are a list of their own because they are put as one slice.
#[derive(Drop)]
pub(crate) struct Run {
    pub(crate) name: u64,
    medium: Medium,
    layers: Vec<Layer>,
    entries: Vec<Entry>,
    wanted: Vec<(u64, Wanted)>,
}

impl Run {
    pub(crate) fn new(heap: Global, name: u64) -> Run {
        Run {
            name,
            medium: Medium {
                count: 0,
                length: 64,
                spares: 0,
                bad: Vec::new(heap),
                bytes: Vec::new(heap),
            },
            layers: Vec::new(heap),
            entries: Vec::new(heap),
            wanted: Vec::new(heap),
        }
    }

    // Adds a call with the answer that it must have.
    fn ask(&mut self, number: u64, call: Call, wanted: Wanted) -> anyhow::Result<()> {
        self.entries.push(Entry { call, answer: None })?;
        self.wanted.push((number, wanted))?;
        Ok(())
    }

    // Takes in the line with this number. The last one puts the calls.
    pub(crate) fn take(
        &mut self,
        heap: Global,
        number: u64,
        line: Line,
    ) -> anyhow::Result<Option<Verdict>> {
        match line {
            Line::Run(name) => *self = Run::new(heap, name),
            Line::Medium(medium) => self.medium = medium,
            Line::Layer(layer) => self.layers.push(layer)?,
            Line::Stack {
                count,
                length,
                layer,
            } => {
                self.ask(number, Call::Count, Wanted::Number(count))?;
                self.ask(number, Call::Length, Wanted::Number(length))?;
                self.ask(number, Call::Layer, Wanted::Number(layer))?;
            }
            Line::Call(call, wanted) => self.ask(number, call, wanted)?,
            Line::End(bytes) => return Ok(Some(self.finish(number, &bytes))),
        }
        Ok(None)
    }

    // Puts the calls and compares every answer, then the medium's bytes.
    fn finish(&mut self, number: u64, end: &[u8]) -> Verdict {
        put(&mut self.medium, &self.layers, &mut self.entries)?;
        for (entry, (line, wanted)) in self.entries.iter().zip(self.wanted.iter()) {
            if !agrees(entry, wanted) {
                return Err(Failure::Differs(*line));
            }
        }
        if self.medium.bytes.as_slice() != end {
            return Err(Failure::Differs(number));
        }
        Ok(self.entries.len().saturating_sub(FIGURES))
    }
}

// Whether a refused call kept its buffer. Only a read could change its own.
fn kept(call: &Call) -> bool {
    match call {
        Call::Read(_, buffer) => buffer.iter().all(|byte| *byte == FILL),
        _ => true,
    }
}

// Whether a call was answered as it must be. Numbers are compared: one that is no state's or no refusal's is a wrong answer.
fn agrees(entry: &Entry, wanted: &Wanted) -> bool {
    match (entry.answer, wanted) {
        (Some(Answer::Number(n)), Wanted::Number(m)) => n == *m,
        (Some(Answer::State(state)), Wanted::State(n)) => u64::from(state.number()) == *n,
        (Some(Answer::Transfer(Ok(()))), Wanted::Done) => true,
        (Some(Answer::Transfer(Ok(()))), Wanted::Bytes(bytes)) => match &entry.call {
            Call::Read(_, buffer) => buffer == bytes,
            _ => false,
        },
        (
            Some(Answer::Transfer(Err(fault))),
            Wanted::Refused {
                number,
                sector,
                layer,
            },
        ) => {
            u64::from(fault.number()) == *number
                && fault.sector == *sector
                && u64::from(fault.layer) == *layer
                && kept(&entry.call)
        }
        _ => false,
    }
}

impl fmt::Display for Failure {
    fn fmt<W: fmt::Write>(&self, f: &mut fmt::Formatter<W>) -> fmt::Result {
        match *self {
            Failure::Differs(line) => write!(f, "differs at line {line}"),
            Failure::TooDeep => write!(f, "has more than 5 layers"),
            Failure::Unfinished => write!(f, "has no end"),
        }
    }
}
