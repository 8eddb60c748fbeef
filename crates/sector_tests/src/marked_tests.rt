// The marked cases of the transform on the code: `sector` proves the same of the definitions.
use crate::constant::Always;
use hashing::{BlockHash, BrwHash, HornerHash};
use sector::cipher::SectorCipher;
use sector::text::Direction;
use std::process::Abort;

// A text of four blocks whose bytes are all zero but each block's last.
fn four(a: u8, b: u8, c: u8, d: u8) -> [u8; 64] {
    let mut text = [0; 64];
    text[15] = a;
    text[31] = b;
    text[47] = c;
    text[63] = d;
    text
}

fn goes_to<H: BlockHash>(
    rt: &impl Abort,
    f: u128,
    g: &H,
    sector: u64,
    plain: [u8; 64],
    enciphered: [u8; 64],
) {
    let cipher = SectorCipher {
        function: Always { value: f },
        hash: g,
    };
    let mut output = [0xff; 64];
    let mut working = [0xff; 48];
    assert!(rt;
        cipher
            .transform(
                Direction::Encipher,
                sector,
                &plain,
                &mut output,
                &mut working
            )
            .is_ok()
    );
    assert_eq!(rt; output, enciphered);
    assert!(rt;
        cipher
            .transform(
                Direction::Decipher,
                sector,
                &enciphered,
                &mut output,
                &mut working
            )
            .is_ok()
    );
    assert_eq!(rt; output, plain);
    assert_eq!(rt; working, [0; 48]);
}

#[test]
fn constant_functions(rt: HostRuntime) {
    goes_to(
        &rt,
        2,
        &BrwHash,
        0,
        four(0, 0, 0, 0),
        four(0x56, 0x22, 2, 2),
    );
    goes_to(
        &rt,
        2,
        &HornerHash,
        0,
        four(0, 0, 0, 0),
        four(0x56, 0x32, 2, 2),
    );
    goes_to(
        &rt,
        2,
        &BrwHash,
        1,
        four(0, 0, 0, 0),
        four(0x5c, 0x22, 2, 2),
    );
    goes_to(&rt, 0, &BrwHash, 0, four(1, 2, 3, 4), four(1, 2, 3, 4));
}
