// Media and windows with figures that keep every rule, and with each rule broken by as little as can be. Refusals and states are
// compared by number, so that the numbers are tested too.
use ciphers::speck::Speck128;
use hashing::HornerHash;
use layers::cipher::CipherLayer;
use layers::window::Window;
use media::flat::FlatMedium;
use media::spared::SparedMedium;
use sector::numbers::answer_number;
use std::process::Abort;
use std::test::Fail;
use stores::store::SectorStore;

// Count, length and layer of a store, and the state of its sectors 0 and 5.
fn shown<S: SectorStore>(store: &S) -> (u64, usize, u16, u8, u8) {
    (
        store.count(),
        store.length(),
        store.layer(),
        store.state(0).number(),
        store.state(5).number(),
    )
}

// The bytes handed in, count and length of a flat medium, and what the check answers.
const FLAT: [(usize, u64, usize, u8); 18] = [
    (0, 0, 64, 0),
    (0, 0, 4096, 0),
    (384, 6, 64, 0),
    (24576, 6, 4096, 0),
    (65536 * 64, 65536, 64, 0),
    (65536 * 4096, 65536, 4096, 0),
    // one byte too few and one too many, one sector too few and one too many
    (383, 6, 64, 6),
    (385, 6, 64, 6),
    (384, 5, 64, 6),
    (384, 7, 64, 6),
    (65537 * 64, 65537, 64, 6),
    // lengths out of the limits, and between two multiples of 16
    (288, 6, 48, 6),
    (0, 0, 0, 6),
    (378, 6, 63, 6),
    (390, 6, 65, 6),
    (432, 6, 72, 6),
    (24672, 6, 4112, 6),
    // a product of 2^64
    (0, 1 << 58, 64, 6),
];

// What is made of the figures: as named, or empty with the length 64.
fn flat(rt: &impl Abort, bytes: &mut [u8], count: u64, length: usize, answer: u8) {
    let made = FlatMedium::new(bytes, count, length);
    let wanted = match (answer, count) {
        (0, 0) => (0, length, 0, 4, 4),
        (0, _) => (count, length, 0, 0, 0),
        _ => (0, 64, 0, 4, 4),
    };
    assert_eq!(rt; shown(&made), wanted);
}

fn all_flat(rt: &impl Abort, memory: &mut [u8]) {
    for (bytes, count, length, answer) in FLAT {
        assert_eq!(rt;
            answer_number(FlatMedium::check(bytes, count, length)),
            answer
        );
        if bytes <= memory.len() {
            flat(rt, &mut memory[0..bytes], count, length, answer);
        }
    }
}

#[test]
fn flat_figures(rt: HostRuntime) -> Result<(), Fail> {
    let mut memory = vec![in rt.alloc(); 0; 4194368]?;
    all_flat(&rt, memory.as_mut_slice());
    Ok(())
}

// A spared medium of 6 sectors of 64 bytes: the bytes handed in, the spares, the bad sectors, what the check answers, and
// the state of sectors 0 and 5.
const SPARED: [(usize, usize, &[u64], u8, (u8, u8)); 13] = [
    (384, 0, &[], 0, (0, 0)),
    (384, 0, &[5], 0, (0, 5)),
    (448, 1, &[5, 0], 0, (5, 0)),
    (448, 1, &[0, 1, 2, 3, 4, 5], 0, (0, 5)),
    (1408, 16, &[0, 5], 0, (0, 0)),
    // a spare too few and one too many for the bytes, one byte too few and one too many, 17 spares
    (448, 0, &[], 6, (4, 4)),
    (384, 1, &[], 6, (4, 4)),
    (447, 1, &[], 6, (4, 4)),
    (449, 1, &[], 6, (4, 4)),
    (1472, 17, &[], 6, (4, 4)),
    // a bad sector not below the count, one listed twice
    (448, 1, &[6], 6, (4, 4)),
    (448, 1, &[5, 1, 5], 6, (4, 4)),
    (448, 1, &[3, 3], 6, (4, 4)),
];

fn spared<'a>(
    rt: &impl Abort,
    bytes: &'a mut [u8],
    spares: usize,
    bad: &'a [u64],
    answer: u8,
    states: (u8, u8),
) {
    assert_eq!(rt;
        answer_number(SparedMedium::check(bytes.len(), 6, 64, spares, bad)),
        answer
    );
    let made = SparedMedium::new(bytes, 6, 64, spares, bad);
    let count = if answer == 0 { 6 } else { 0 };
    assert_eq!(rt; shown(&made), (count, 64, 0, states.0, states.1));
}

fn all_spared(rt: &impl Abort, memory: &mut [u8]) {
    for (bytes, spares, bad, answer, states) in SPARED {
        assert!(rt; bytes <= memory.len());
        spared(rt, &mut memory[0..bytes], spares, bad, answer, states);
    }
}

#[test]
fn spared_figures(rt: HostRuntime) {
    let mut memory = [0; 1536];
    all_spared(&rt, &mut memory);
}

// A list of 16 bad sectors is taken, one of 17 is not.
#[test]
fn long_lists(rt: HostRuntime) {
    let bad = [0, 1, 2, 3, 4, 5, 6, 7, 8, 9, 10, 11, 12, 13, 14, 15, 16];
    assert_eq!(rt;
        answer_number(SparedMedium::check(20 * 64, 20, 64, 0, &bad[0..16])),
        0
    );
    assert_eq!(rt;
        answer_number(SparedMedium::check(20 * 64, 20, 64, 0, &bad)),
        6
    );
    assert_eq!(rt;
        answer_number(SparedMedium::check(65537 * 64, 65537, 64, 0, &bad[0..16])),
        6
    );
    assert_eq!(rt;
        answer_number(SparedMedium::check(48 * 20, 20, 48, 0, &bad[0..16])),
        6
    );
}

// Base and count of a window on 8 sectors, what the check answers, and the count that is made.
const WINDOWS: [(u64, u64, u8, u64); 17] = [
    (0, 8, 0, 8),
    (0, 0, 0, 0),
    (3, 5, 0, 5),
    // at the very end
    (7, 1, 0, 1),
    (8, 0, 0, 0),
    // past it by one
    (0, 9, 6, 0),
    (7, 2, 6, 0),
    (8, 1, 6, 0),
    (9, 0, 6, 0),
    // sums of 2^64 and more, which would be small if they wrapped
    (u64::MAX, 1, 6, 0),
    (1, u64::MAX, 6, 0),
    (1 << 63, 1 << 63, 6, 0),
    (u64::MAX, 8, 6, 0),
    (u64::MAX, 9, 6, 0),
    (u64::MAX - 3, 8, 6, 0),
    (8, u64::MAX, 6, 0),
    (u64::MAX, u64::MAX, 6, 0),
];

fn window(rt: &impl Abort, bytes: &mut [u8], base: u64, count: u64, answer: u8, made: u64) {
    let below = CipherLayer::new(
        FlatMedium::new(bytes, 8, 80),
        Speck128::new([3; 16]),
        HornerHash,
    );
    assert_eq!(rt; answer_number(Window::check(&below, base, count)), answer);
    let window = Window::new(below, base, count);
    let first = if made > 0 { 0 } else { 4 };
    let sixth = if made > 5 { 0 } else { 4 };
    assert_eq!(rt; shown(&window), (made, 80, 2, first, sixth));
    assert_eq!(rt; window.state(made).number(), 4);
    assert_eq!(rt; shown(&window.into_below()), (8, 80, 1, 0, 0));
}

fn all_windows(rt: &impl Abort, bytes: &mut [u8]) {
    for (base, count, answer, made) in WINDOWS {
        window(rt, bytes, base, count, answer, made);
    }
}

#[test]
fn windows(rt: HostRuntime) {
    let mut bytes = [0; 640];
    all_windows(&rt, &mut bytes);
}
