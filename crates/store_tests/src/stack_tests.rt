// Two enciphering layers, a window between them and one on top, over a medium with a spared and a failed sector, with the
// answers that `tools/reference.py` gives.
use ciphers::aes::Aes128;
use ciphers::speck::Speck128;
use hashing::{BrwHash, HornerHash};
use layers::cipher::CipherLayer;
use layers::window::Window;
use media::spared::SparedMedium;
use stacks::call::{Answer, Call, Entry};
use stacks::run::run;
use stacks::stack::{Next, Zero};
use std::alloc::{AllocError, Global};
use std::process::Abort;
use std::test::Fail;
use stores::store::SectorStore;

type Lower<S> = Window<CipherLayer<S, Speck128, HornerHash>>;

type Upper<S> = Window<CipherLayer<Lower<S>, Aes128, BrwHash>>;

// Puts the calls to the stack on a store.
fn put_to<S: SectorStore + Drop>(lowest: S, list: &mut [Entry]) {
    let key = [0, 1, 2, 3, 4, 5, 6, 7, 8, 9, 10, 11, 12, 13, 14, 15];
    let lower = Window::new(
        CipherLayer::new(lowest, Speck128::new(key), HornerHash),
        1,
        5,
    );
    let key = [
        16, 17, 18, 19, 20, 21, 22, 23, 24, 25, 26, 27, 28, 29, 30, 31,
    ];
    let mut upper = Window::new(CipherLayer::new(lower, Aes128::new(key), BrwHash), 1, 3);
    run::<S, Next<Next<Next<Next<Zero>>>>, Upper<S>>(&mut upper, list);
}

// Of six sectors, 2 lies in the one spare and 4 has failed.
fn put<'a>(bytes: &'a mut [u8], bad: &'a [u64], list: &mut [Entry]) {
    put_to(SparedMedium::new(bytes, 6, 64, 1, bad), list);
}

// A call, by its sector, and by the length of its buffer and what fills this.
#[derive(Clone, Copy)]
enum Asked {
    Count,
    Length,
    Layer,
    State(u64),
    Read(u64, usize, u8),
    Write(u64, usize, u8),
}

const CALLS: [Asked; 20] = [
    Asked::Count,
    Asked::Length,
    Asked::Layer,
    Asked::State(0),
    Asked::State(2),
    Asked::State(3),
    Asked::State(u64::MAX),
    Asked::Read(0, 64, 7),
    Asked::Read(1, 64, 7),
    Asked::Write(0, 64, 0x5a),
    Asked::Read(0, 64, 7),
    Asked::Write(1, 63, 0x5a),
    Asked::Write(2, 64, 0x5a),
    Asked::Write(3, 64, 0x5a),
    Asked::Read(1, 65, 7),
    Asked::Read(2, 64, 7),
    Asked::Read(u64::MAX, 64, 7),
    Asked::Read(1, 64, 7),
    Asked::Write(0, 64, 0xc3),
    Asked::Read(0, 64, 7),
];

fn call(asked: Asked, heap: Global) -> Result<Call, AllocError> {
    Ok(match asked {
        Asked::Count => Call::Count,
        Asked::Length => Call::Length,
        Asked::Layer => Call::Layer,
        Asked::State(sector) => Call::State(sector),
        Asked::Read(sector, length, fill) => Call::Read(sector, vec![in heap; fill; length]?),
        Asked::Write(sector, length, fill) => Call::Write(sector, vec![in heap; fill; length]?),
    })
}

fn entries(heap: Global) -> Result<Vec<Entry>, AllocError> {
    let mut list = Vec::new(heap);
    for asked in CALLS {
        list.push(Entry {
            call: call(asked, heap)?,
            answer: None,
        })?;
    }
    Ok(list)
}

// The number that each call is answered, or the number, the sector and the layer of a fault.
type Told = Result<u64, (u8, u64, u16)>;

const ANSWERS: [Told; 20] = [
    Ok(3),
    Ok(64),
    Ok(4),
    Ok(0),
    Ok(5),
    Ok(4),
    Ok(4),
    Ok(0),
    Ok(0),
    Ok(0),
    Ok(0),
    Err((2, 1, 4)),
    Err((5, 4, 0)),
    Err((4, 3, 4)),
    Err((2, 1, 4)),
    Err((5, 4, 0)),
    Err((4, u64::MAX, 4)),
    Ok(0),
    Ok(0),
    Ok(0),
];

fn told(answer: Answer) -> Told {
    match answer {
        Answer::Transfer(Ok(())) => Ok(0),
        Answer::Transfer(Err(fault)) => Err((fault.number(), fault.sector, fault.layer)),
        Answer::Number(n) => Ok(n),
        Answer::State(state) => Ok(u64::from(state.number())),
    }
}

// The buffer of the call at a place in the list.
fn buffer(list: &[Entry], at: usize) -> Option<&[u8]> {
    match &list.get(at)?.call {
        Call::Read(_, buffer) | Call::Write(_, buffer) => Some(buffer.as_slice()),
        _ => None,
    }
}

// Sector 0 before any write: the spare's bytes, deciphered twice.
const FIRST: [u8; 64] = [
    0x12, 0x6c, 0x42, 0x0c, 0x28, 0x0d, 0xaa, 0x5c, 0x26, 0xdb, 0x66, 0x48, 0x44, 0x08, 0x10, 0x22,
    0x3f, 0xb5, 0x47, 0xa5, 0x15, 0xc1, 0xde, 0x94, 0x26, 0xd7, 0x5d, 0xb5, 0xf9, 0x56, 0x67, 0x27,
    0x8e, 0xe6, 0x8c, 0x65, 0x4f, 0x4f, 0xb0, 0x4c, 0xf1, 0xc6, 0xf3, 0x55, 0x78, 0x46, 0xca, 0xc5,
    0x48, 0xc8, 0xfb, 0x69, 0xfa, 0x9a, 0xef, 0xc2, 0x48, 0x45, 0xe3, 0xb5, 0x1f, 0x7c, 0x26, 0x9b,
];

// Sector 1, never written.
const SECOND: [u8; 64] = [
    0x9c, 0x84, 0xb6, 0x5a, 0x04, 0x29, 0x9a, 0x61, 0xb4, 0x7e, 0x6f, 0xda, 0x2c, 0xad, 0xb0, 0x4e,
    0xf6, 0xe4, 0xac, 0x39, 0x69, 0xd1, 0xd0, 0xe3, 0x30, 0x52, 0xf3, 0xbf, 0x38, 0xf2, 0x48, 0x45,
    0x23, 0xb6, 0x70, 0x80, 0x7c, 0x30, 0x0f, 0x9d, 0x7b, 0x6c, 0x0f, 0xd3, 0x55, 0xfa, 0xff, 0xe7,
    0x17, 0x35, 0xcf, 0xe8, 0x8f, 0xca, 0xd6, 0x4f, 0x3f, 0xf2, 0xe0, 0x62, 0x3d, 0xc9, 0x9f, 0xfc,
];

// What the spare holds at the end: the second text for sector 0, enciphered twice.
const SPARE: [u8; 64] = [
    0xc4, 0xf8, 0x6a, 0xf8, 0x16, 0xe7, 0x30, 0xc6, 0x3f, 0x29, 0x80, 0x78, 0x87, 0x21, 0x0a, 0x8b,
    0x5a, 0x86, 0xa9, 0xa0, 0x9b, 0xcb, 0x1a, 0xdb, 0xe6, 0xcd, 0x8b, 0x00, 0x3b, 0x17, 0x5a, 0x4a,
    0xf2, 0xd4, 0xaa, 0xe3, 0xab, 0x5b, 0x65, 0xe8, 0x09, 0x46, 0x5e, 0x1e, 0x31, 0xd3, 0xc1, 0x0e,
    0x86, 0x73, 0x16, 0x01, 0xd0, 0x47, 0xa2, 0xb6, 0xb2, 0x87, 0xe9, 0x7d, 0xea, 0xa4, 0xfd, 0xef,
];

// The bytes that the medium is lent at first.
fn drawn(heap: Global) -> Result<Vec<u8>, AllocError> {
    (0..448u32)
        .map(|i| ((11 + 37 * i) % 256) as u8)
        .collect(heap)
}

fn answers(rt: &impl Abort, list: &[Entry]) {
    assert!(rt; list.len() == ANSWERS.len());
    for (entry, wanted) in list.iter().zip(ANSWERS.iter()) {
        assert_eq!(rt; entry.answer.map(told), Some(*wanted));
    }
}

fn buffers(rt: &impl Abort, list: &[Entry]) {
    assert!(rt; buffer(list, 7) == Some(FIRST.as_slice()));
    assert!(rt; buffer(list, 8) == Some(SECOND.as_slice()));
    assert!(rt; buffer(list, 9) == Some([0x5a; 64].as_slice()));
    assert!(rt; buffer(list, 10) == Some([0x5a; 64].as_slice()));
    assert!(rt; buffer(list, 14) == Some([7; 65].as_slice()));
    assert!(rt; buffer(list, 15) == Some([7; 64].as_slice()));
    assert!(rt; buffer(list, 16) == Some([7; 64].as_slice()));
    assert!(rt; buffer(list, 17) == Some(SECOND.as_slice()));
    assert!(rt; buffer(list, 19) == Some([0xc3; 64].as_slice()));
}

#[test]
fn four_layers(rt: HostRuntime) -> Result<(), Fail> {
    let before = drawn(rt.alloc())?;
    let mut bytes = drawn(rt.alloc())?;
    let mut list = entries(rt.alloc())?;
    put(bytes.as_mut_slice(), &[2, 4], list.as_mut_slice());
    answers(&rt, list.as_slice());
    buffers(&rt, list.as_slice());
    assert!(rt; before.len() == 448 && bytes.len() == 448);
    let (places, spare) = bytes.as_slice().split_at(384);
    let (untouched, _) = before.as_slice().split_at(384);
    assert!(rt; places == untouched);
    assert!(rt; spare == SPARE.as_slice());
    Ok(())
}
