ghost use Rattle.std.specs.Prelude.{◌≡◌, ◌++◌, map, length, IfOk};
ghost use Rattle.stacks.specs.Calls.{asks};
ghost use Rattle.sheets.specs.Records.{said};
ghost use Rattle.sheet_turns.specs.Table.{does, puts_of};
ghost use Rattle.sheet_plans.specs.Plans.{call_at, call_asked, note_of, Planned};

use lines::line::{Line, LineKind};
use sheet_turns::turns::{Effect, Run};
use sheets::records::Record;
use stacks::call::{Call, Entry};
use std::alloc::{AllocError, Global};

// A line, and the number of the call that answers it, if one does. So each note is finished by itself, in any order.
#[derive(Clone, Copy, Debug, PartialEq, Eq)]
pub struct Note {
    pub line: Line,
    pub call: Option<usize>,
}

// The records of a run taken in turn: the state after them, a note for each, and the calls to be put to the store.
#[derive(Drop)]
pub struct Plan {
    pub run: Run,
    pub notes: Vec<Note>,
    pub calls: Vec<Entry>,
}

// The call that an effect puts, with a buffer of its own.
fn call_of(heap: Global, effect: Effect) -> Result<Option<Call>, AllocError>
    ensures { IfOk result (λ call. call_asked call ≡ puts_of (does effect.entry)) }
{
    match effect {
        Effect::Answered(_) => Ok(None),
        Effect::Write { sector, text } => Ok(Some(Call::Write(
            u64::from(sector),
            Vec::from_slice(heap, text)?,
        ))),
        Effect::Read { sector, length } => Ok(Some(Call::Read(
            u64::from(sector),
            vec![in heap; 0u8; usize::from(length)]?,
        ))),
    }
}

// Adds the call that an effect puts, and answers its number.
fn put(heap: Global, effect: Effect, calls: &mut Vec<Entry>) -> Result<Option<usize>, AllocError>
    ensures { IfOk result (λ k. (asks calls.new.items ≡ asks calls.old.items ++ puts_of (does effect.entry))
        × (k ≡ call_at (puts_of (does effect.entry)) (length calls.old.items))) }
{
    let Some(call) = call_of(heap, effect)? else {
        return Ok(None);
    };
    let number = calls.len();
    calls.push(Entry { call, answer: None })?;
    Ok(Some(number))
}

// The note of a record by what it does. Its line is whole: `Ok` stands in it until a call's answer is filled in.
fn noted(index: usize, record: Record, effect: Effect, call: Option<usize>) -> Note
    ensures { result ≡ note_of index (said «record».entry) (does effect.entry) call }
{
    let (kind, sector) = match record {
        Record::Setting(_) => (LineKind::Setting, None),
        Record::Write { sector, .. } => (LineKind::Write, Some(sector)),
        Record::Read { sector } => (LineKind::Read, Some(sector)),
    };
    let answer = match effect {
        Effect::Answered(answer) => answer,
        _ => Ok(()),
    };
    Note {
        line: Line {
            index,
            kind,
            sector,
            answer,
            first: None,
        },
        call,
    }
}

// Takes the records in turn.
pub fn planned(heap: Global, records: &[Record]) -> Result<Plan, AllocError>
    ensures { IfOk result (λ p. Planned (map said records.now) p.run p.notes.items p.calls.items) }
{
    let mut run = Run::Waiting;
    let mut notes = Vec::new(heap);
    let mut calls = Vec::new(heap);
    for record in records {
        let effect = run.turn(*record);
        let call = put(heap, effect, &mut calls)?;
        notes.push(noted(notes.len(), *record, effect, call))?;
    }
    Ok(Plan { run, notes, calls })
}
