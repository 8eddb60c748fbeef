use sheets::records::Values;
use std::alloc::{AllocError, Global};

pub(crate) const KEY: [u8; 16] = [0, 1, 2, 3, 4, 5, 6, 7, 8, 9, 10, 11, 12, 13, 14, 15];

// A text of at most 65,532 bytes: the first, and from each to the next a step.
#[derive(Clone, Copy, Debug, PartialEq, Eq)]
pub struct Text {
    pub first: u8,
    pub step: u8,
    pub length: u16,
}

// A record to put into a sheet.
#[derive(Clone, Copy, Debug, PartialEq, Eq)]
pub enum Draft {
    Setting(Values),
    Write { sector: u16, text: Text },
    Read { sector: u16 },
    // as a read, but of kind 0
    Kindless { sector: u16 },
}

fn put_number(sheet: &mut Vec<u8>, n: u16) -> Result<(), AllocError> {
    sheet.extend_from_slice(&n.to_be_bytes())
}

// The length of a body, its kind and a sector.
fn put_start(sheet: &mut Vec<u8>, length: u16, kind: u8, sector: u16) -> Result<(), AllocError> {
    put_number(sheet, length)?;
    sheet.push(kind)?;
    put_number(sheet, sector)
}

fn put_setting(sheet: &mut Vec<u8>, values: Values) -> Result<(), AllocError> {
    put_number(sheet, 23)?;
    sheet.extend_from_slice(&[1, values.cipher, values.hash])?;
    put_number(sheet, values.length)?;
    put_number(sheet, values.count)?;
    sheet.extend_from_slice(&values.key)
}

fn put_text(sheet: &mut Vec<u8>, text: Text) -> Result<(), AllocError> {
    let mut byte = text.first;
    for _ in 0..text.length {
        sheet.push(byte)?;
        byte = byte.wrapping_add(text.step);
    }
    Ok(())
}

pub(crate) fn put(sheet: &mut Vec<u8>, record: Draft) -> Result<(), AllocError> {
    match record {
        Draft::Setting(values) => put_setting(sheet, values),
        Draft::Write { sector, text } => {
            put_start(sheet, text.length.wrapping_add(3), 2, sector)?;
            put_text(sheet, text)
        }
        Draft::Read { sector } => put_start(sheet, 3, 3, sector),
        Draft::Kindless { sector } => put_start(sheet, 3, 0, sector),
    }
}

// The sheet with these records.
pub(crate) fn sheet_of(heap: Global, records: &[Draft]) -> Result<Vec<u8>, AllocError> {
    let mut sheet = vec![in heap; 1]?;
    for record in records {
        put(&mut sheet, *record)?;
    }
    Ok(sheet)
}
