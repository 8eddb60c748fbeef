// The numbers of a store.
#[derive(Clone, Copy, Debug, PartialEq, Eq)]
pub struct Dimensions {
    pub count: u64,
    pub length: usize,
    pub layer: u16,
}
