ghost use Rattle.std.specs.Prelude.{false, map, IfOk};
ghost use Rattle.sheets.specs.Records.{said};
ghost use Rattle.sheet_runs.specs.Lines.{LinesAre, RunOf};

use crate::puts::put_calls;
use lines::line::{Line, LineKind};
use sheet_plans::answers::lines_of;
use sheet_plans::plans::planned;
use sheets::reading::read_sheet;
use sheets::records::Record;
use std::alloc::{AllocError, Global};

// Runs the records of a sheet.
fn run_records(heap: Global, records: &[Record]) -> Result<Vec<Line>, AllocError>
    ensures { IfOk result (λ v. LinesAre (map said records.now) false v.items) }
{
    let mut plan = planned(heap, records)?;
    put_calls(heap, plan.run, &mut plan.calls)?;
    lines_of(heap, &plan.notes, &plan.calls)
}

// Runs a sheet: a line for each record, in order, and one more if the sheet is broken.
pub fn run_sheet(heap: Global, sheet: &[u8]) -> Result<Vec<Line>, AllocError>
    ensures { IfOk result (λ v. RunOf sheet.now v.items) }
{
    let read = read_sheet(heap, sheet)?;
    let mut lines = run_records(heap, &read.records)?;
    if read.end.is_err() {
        lines.push(Line {
            index: lines.len(),
            kind: LineKind::Broken,
            sector: None,
            answer: read.end,
            first: None,
        })?;
    }
    Ok(lines)
}
