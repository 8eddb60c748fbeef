// Why a call is refused. The numbers are those by which a caller is told.
#[derive(Clone, Copy, Debug, PartialEq, Eq)]
pub enum Refusal {
    // a text that is not a multiple of 16 bytes from 64 to 4,096
    TextLength = 1,
    // a buffer that is not as long as what goes into or out of it
    BufferLength = 2,
    // too few working bytes
    WorkingLength = 3,
    // a sector that is not below the store's count
    SectorNumber = 4,
    // a sector that has failed
    SectorFailed = 5,
    // figures that break a rule: of a medium, a window or a setting
    Figures = 6,
    // a sheet that is no sequence of records
    SheetBroken = 7,
    // a record that the state of the run does not take
    OutOfTurn = 8,
}
