ghost use Rattle.std.specs.Prelude.{◌≡◌, map, IfOk};
ghost use Rattle.stacks.specs.Calls.{ask};
ghost use Rattle.sheet_plans.specs.Plans.{answer_of, shown_of, finished as finished_by};

use crate::plans::Note;
use lines::line::Line;
use sector::refusal::Refusal;
use stacks::call::{Answer, Call, Entry};
use std::alloc::{AllocError, Global};

// What a line tells of a call: its answer, and the first bytes of an accepted read.
fn outcome(entry: &Entry) -> (Result<(), Refusal>, Option<[u8; 8]>)
    ensures { result ≡ (answer_of entry.now.answer, shown_of entry.now.answer (ask entry.now.call)) }
{
    match (entry.answer, &entry.call) {
        (Some(Answer::Transfer(Err(fault))), _) => (Err(fault.refusal), None),
        (Some(Answer::Transfer(Ok(()))), Call::Read(_, buffer)) => {
            (Ok(()), buffer.first_chunk().copied())
        }
        _ => (Ok(()), None),
    }
}

// A note's line, with the answer of its call.
fn finished(note: Note, calls: &[Entry]) -> Line
    ensures { result ≡ finished_by note calls.now }
{
    let Some(entry) = note.call.and_then(|k| calls.get(k)) else {
        return note.line;
    };
    let (answer, first) = outcome(entry);
    Line {
        answer,
        first,
        ..note.line
    }
}

// The lines of notes, with the answers of the calls.
pub fn lines_of(heap: Global, notes: &[Note], calls: &[Entry]) -> Result<Vec<Line>, AllocError>
    ensures { IfOk result (λ v. v.items ≡ map (λ n. finished_by n calls.now) notes.now) }
{
    let mut lines = Vec::new(heap);
    for note in notes {
        lines.push(finished(*note, calls))?;
    }
    Ok(lines)
}
