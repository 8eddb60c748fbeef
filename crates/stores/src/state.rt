// What a store answers of a sector.
#[derive(Clone, Copy, Debug, PartialEq, Eq)]
pub enum SectorState {
    Ready,
    // the sector is not below the count
    Missing,
    Failed,
}
