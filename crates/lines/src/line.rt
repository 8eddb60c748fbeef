use sector::refusal::Refusal;

// What a record of a sheet is, or that the sheet is broken where the record would stand.
#[derive(Clone, Copy, Debug, PartialEq, Eq)]
pub enum LineKind {
    Setting,
    Write,
    Read,
    Broken,
}

// What one record of a sheet came to, as its printed line tells it.
#[derive(Clone, Copy, Debug, PartialEq, Eq)]
pub struct Line {
    // which record of the sheet, counted from 0
    pub index: usize,
    pub kind: LineKind,
    // the sector that a write or a read names
    pub sector: Option<u16>,
    pub answer: Result<(), Refusal>,
    // the first bytes of the sector, where a read is accepted
    pub first: Option<[u8; 8]>,
}
