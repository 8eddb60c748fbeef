use ciphers::choice::Cipher;
use hashing::choice::AnyHash;

// The lowest store of a run: the figures of a spared medium, its bad sectors, and the bytes lent to it.
#[derive(Drop)]
pub(crate) struct Medium {
    pub(crate) count: u64,
    pub(crate) length: usize,
    pub(crate) spares: usize,
    pub(crate) bad: Vec<u64>,
    pub(crate) bytes: Vec<u8>,
}

// A layer to be made.
#[derive(Clone, Copy)]
pub(crate) enum Layer {
    Encipher {
        cipher: Cipher,
        hash: AnyHash,
        key: [u8; 16],
    },
    Window {
        base: u64,
        count: u64,
    },
}

// The answer that a call must have. Its bytes alone are held, and those of an accepted read alone: with each call a second
// time, as it must be afterwards, a run of writes would take twice the memory.
#[derive(Drop)]
pub(crate) enum Wanted {
    // a number in answer to a question
    Number(u64),
    State(u64),
    // an accepted write
    Done,
    // an accepted read
    Bytes(Vec<u8>),
    Refused {
        number: u64,
        sector: u64,
        layer: u64,
    },
}
