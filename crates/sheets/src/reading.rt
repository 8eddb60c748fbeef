ghost use Rattle.std.specs.Prelude.{◌≡◌, Bool, map, IfOk};
ghost use Rattle.sheets.specs.Records.{said};
ghost use Rattle.sheets.specs.Sheets.{opened, RecordsOf, end_of, OneStands, TextIsPart, OneReading, ReadsBack};

use crate::records::{Record, next_record};
use sector::refusal::Refusal;
use std::alloc::{AllocError, Global};

const VERSION: u8 = 1;

// How many bytes a sheet may have.
pub const LONGEST: usize = 61440;

// The records of a sheet in their order, and how it ends after them: soundly, or broken.
#[derive(Drop)]
pub struct Sheet<'a> {
    pub records: Vec<Record<'a>>,
    pub end: Result<(), Refusal>,
}

// Whether a sheet can be read at all, by its size and its version.
fn opens(sheet: &[u8]) -> bool
    ensures { result ≡ opened sheet.now }
{
    sheet.first() == Some(&VERSION) && sheet.len() <= LONGEST
}

// The records of a sheet.
pub fn read_sheet<'a>(heap: Global, sheet: &'a [u8]) -> Result<Sheet<'a>, AllocError>
    ensures { IfOk result (λ t. (broken : Bool) × RecordsOf sheet.now (map said t.records.items) broken × (t.end ≡ end_of broken)) }
{
    let mut records = Vec::new(heap);
    if !opens(sheet) {
        return Ok(Sheet {
            records,
            end: Err(Refusal::SheetBroken),
        });
    }
    let mut next = next_record(sheet, 1);
    while let Ok(Some(found)) = next {
        records.push(found.record)?;
        next = next_record(sheet, found.next);
    }
    Ok(Sheet {
        records,
        end: next.map(|_| ()),
    })
}

// At most one record stands at a place, a write's text is the part of the sheet at its place, a sheet has one list of
// records, and its bytes are theirs.
pub fn sheets_read_back()
    ensures stands { OneStands }
    ensures part { TextIsPart }
    ensures reading { OneReading }
    ensures back { ReadsBack }
{}
