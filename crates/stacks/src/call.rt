use stores::fault::Fault;
use stores::state::SectorState;

// One call of a list, with its sector and its own buffer.
#[derive(Debug, PartialEq, Eq, Drop)]
pub enum Call {
    Count,
    Length,
    Layer,
    State(u64),
    Read(u64, Vec<u8>),
    Write(u64, Vec<u8>),
}

// What a call was answered.
#[derive(Clone, Copy, Debug, PartialEq, Eq)]
pub enum Answer {
    // of a read or a write
    Transfer(Result<(), Fault>),
    Number(u64),
    State(SectorState),
}

// A call and its answer, once it is put.
#[derive(Debug, PartialEq, Eq, Drop)]
pub struct Entry {
    pub call: Call,
    pub answer: Option<Answer>,
}
