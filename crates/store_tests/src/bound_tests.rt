// 65,535 is the last layer number.
use crate::empty::Empty;
use ciphers::speck::Speck128;
use hashing::BrwHash;
use layers::cipher::CipherLayer;
use layers::window::Window;
use std::process::Abort;
use stores::fault::Fault;
use stores::store::SectorStore;

// A layer number, and those of the three layers above it.
const LAYERS: [(u16, u16, u16, u16); 5] = [
    (0, 1, 2, 3),
    (65532, 65533, 65534, 65535),
    (65533, 65534, 65535, 65535),
    (65534, 65535, 65535, 65535),
    (65535, 65535, 65535, 65535),
];

// The number, the sector and the layer of a fault.
fn fault(answer: Result<(), Fault>) -> Option<(u8, u64, u16)> {
    answer
        .err()
        .map(|fault| (fault.number(), fault.sector, fault.layer))
}

// A store with no sectors has this layer number, and its refusals name it.
fn numbered<S: SectorStore>(rt: &impl Abort, store: &mut S, layer: u16) {
    assert_eq!(rt; store.layer(), layer);
    let mut short = [7; 63];
    let mut whole = [7; 64];
    assert_eq!(rt; fault(store.read(5, &mut short)), Some((2, 5, layer)));
    assert_eq!(rt; fault(store.write(5, &short)), Some((2, 5, layer)));
    assert_eq!(rt; fault(store.read(6, &mut whole)), Some((4, 6, layer)));
    assert_eq!(rt; fault(store.write(6, &whole)), Some((4, 6, layer)));
    assert_eq!(rt; short, [7; 63]);
    assert_eq!(rt; whole, [7; 64]);
}

fn layers(rt: &impl Abort, number: u16, first: u16, second: u16, third: u16) {
    let mut lowest = Empty { layer: number };
    numbered(rt, &mut lowest, number);
    let mut cipher = CipherLayer::new(lowest, Speck128::new([1; 16]), BrwHash);
    numbered(rt, &mut cipher, first);
    let mut window = Window::new(cipher, 0, 0);
    numbered(rt, &mut window, second);
    let mut top = CipherLayer::new(window, Speck128::new([2; 16]), BrwHash);
    numbered(rt, &mut top, third);
    let below = top.into_below().into_below().into_below();
    assert_eq!(rt; below.layer(), number);
}

#[test]
fn layer_numbers(rt: HostRuntime) {
    for (number, first, second, third) in LAYERS {
        layers(&rt, number, first, second, third);
    }
}
