use sector::refusal::Refusal;

// A refused read or write: why, and the sector and the layer. They are the caller's sector and the store's own layer,
// but for a failed sector the place where the failure arose.
#[derive(Clone, Copy, Debug, PartialEq, Eq)]
pub struct Fault {
    pub refusal: Refusal,
    pub sector: u64,
    pub layer: u16,
}
