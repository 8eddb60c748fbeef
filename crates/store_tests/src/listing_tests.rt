// The list of failed sectors, the largest store, and layers taken off again.
use ciphers::speck::Speck128;
use hashing::BrwHash;
use layers::cipher::CipherLayer;
use layers::window::Window;
use media::flat::FlatMedium;
use media::spared::SparedMedium;
use std::process::Abort;
use std::test::Fail;
use stores::store::SectorStore;

// How many sectors are listed, or the refusal's number.
fn listed<'a>(
    bytes: &'a mut [u8],
    spares: usize,
    bad: &'a [u64],
    buffer: &mut [u64],
) -> Result<usize, u8> {
    SparedMedium::new(bytes, 6, 64, spares, bad)
        .failures(buffer)
        .map_err(|refusal| refusal.number())
}

fn all_listed(rt: &impl Abort, memory: &mut [u8]) {
    assert!(rt; memory.len() == 512);
    // sectors 2 and 5 have no spare
    let mut short = [9];
    assert_eq!(rt;
        listed(&mut memory[0..448], 1, &[4, 2, 5], &mut short),
        Err(2)
    );
    assert_eq!(rt; short, [9]);
    let mut exact = [9, 9];
    assert_eq!(rt;
        listed(&mut memory[0..448], 1, &[4, 2, 5], &mut exact),
        Ok(2)
    );
    assert!(rt; exact == [2, 5] || exact == [5, 2]);
    let mut longer = [9, 9, 9, 8];
    assert_eq!(rt;
        listed(&mut memory[0..448], 1, &[4, 2, 5], &mut longer),
        Ok(2)
    );
    assert!(rt; longer == [2, 5, 9, 8] || longer == [5, 2, 9, 8]);
    // none has failed: a spare for each, no bad sector, a medium whose figures break a rule
    assert_eq!(rt; listed(&mut memory[0..512], 2, &[4, 2], &mut short), Ok(0));
    assert_eq!(rt; listed(&mut memory[0..384], 0, &[], &mut []), Ok(0));
    assert_eq!(rt; listed(&mut memory[0..385], 0, &[4, 2, 5], &mut []), Ok(0));
    assert_eq!(rt; short, [9]);
}

#[test]
fn failures(rt: HostRuntime) {
    let mut memory = [0; 512];
    all_listed(&rt, &mut memory);
}

// The last sector of the largest store, through a window and a layer on it.
fn last_sector(rt: &impl Abort, bytes: &mut [u8]) {
    let medium = FlatMedium::new(bytes, 65536, 64);
    assert_eq!(rt; medium.count(), 65536);
    assert_eq!(rt; medium.state(65535).number(), 0);
    assert_eq!(rt; medium.state(65536).number(), 4);
    let mut top = CipherLayer::new(
        Window::new(medium, 65535, 1),
        Speck128::new([5; 16]),
        BrwHash,
    );
    assert_eq!(rt; top.count(), 1);
    assert!(rt; top.write(0, &[0x5a; 64]).is_ok());
    let mut buffer = [0; 64];
    assert!(rt; top.read(0, &mut buffer).is_ok());
    assert_eq!(rt; buffer, [0x5a; 64]);
    assert!(rt; top.write(1, &[0x5a; 64]).is_err());
}

// Whether all bytes but those of the last sector are zero, and those are not.
fn only_last(bytes: &[u8]) -> bool {
    bytes.split_last_chunk::<64>().is_some_and(|(front, last)| {
        front.len() == 4194240 && front.iter().all(|b| *b == 0) && *last != [0; 64]
    })
}

#[test]
fn largest(rt: HostRuntime) -> Result<(), Fail> {
    let mut bytes = vec![in rt.alloc(); 0; 4194304]?;
    last_sector(&rt, bytes.as_mut_slice());
    assert!(rt; only_last(bytes.as_slice()));
    Ok(())
}

// What sector n of a store reads.
fn sector<S: SectorStore>(store: &S, n: u64) -> [u8; 64] {
    let mut buffer = [0; 64];
    let _ = store.read(n, &mut buffer);
    buffer
}

// Takes the layers off and finds each store as it is.
fn unstack(rt: &impl Abort, bytes: &mut [u8]) {
    let medium = FlatMedium::new(bytes, 4, 64);
    let mut window = Window::new(
        CipherLayer::new(medium, Speck128::new([5; 16]), BrwHash),
        1,
        3,
    );
    assert!(rt; window.write(2, &[0x5a; 64]).is_ok());
    let untouched = sector(&window, 0);
    let cipher = window.into_below();
    assert_eq!(rt; cipher.count(), 4);
    assert_eq!(rt; cipher.layer(), 1);
    assert_eq!(rt; sector(&cipher, 3), [0x5a; 64]);
    assert_eq!(rt; sector(&cipher, 1), untouched);
    let medium = cipher.into_below();
    assert_eq!(rt; medium.layer(), 0);
    assert_eq!(rt; sector(&medium, 1), [7; 64]);
    let enciphered = sector(&medium, 3);
    assert_ne!(rt; enciphered, [0x5a; 64]);
    let memory = medium.into_bytes();
    assert!(rt; memory.len() == 256);
    assert!(rt; &memory[0..192] == [7; 192].as_slice());
    assert!(rt; &memory[192..256] == enciphered.as_slice());
}

#[test]
fn taken_off(rt: HostRuntime) {
    let mut bytes = [7; 256];
    unstack(&rt, &mut bytes);
}
