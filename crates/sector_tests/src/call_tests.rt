// Which calls are refused, by number, as the numbers are what callers in C get, and what the calls leave.
use crate::constant::Always;
use ciphers::aes::Aes128;
use ciphers::choice::AnyCipher;
use ciphers::function::BlockFunction;
use ciphers::speck::Speck128;
use hashing::BrwHash;
use sector::cipher::SectorCipher;
use sector::numbers::answer_number;
use sector::text::Direction;
use std::process::Abort;

fn all(bytes: &[u8], value: u8) -> bool {
    bytes.iter().all(|b| *b == value)
}

// Both directions answer this number for these lengths, leave the output if they refuse, and zero the working bytes.
fn answers(rt: &impl Abort, text: &[u8], output: &mut [u8], working: &mut [u8], expected: u8) {
    let cipher = SectorCipher {
        function: Always { value: 2 },
        hash: BrwHash,
    };
    for direction in [Direction::Encipher, Direction::Decipher] {
        output.fill(0xaa);
        working.fill(0x55);
        assert_eq!(rt;
            answer_number(cipher.transform(direction, 5, text, output, working)),
            expected
        );
        assert!(rt; expected == 0 || all(output, 0xaa));
        assert!(rt; all(working, 0));
    }
}

// One call each way with so many bytes of each.
fn lengths(
    rt: &impl Abort,
    text: &[u8],
    output: &mut [u8],
    working: &mut [u8],
    lengths: (usize, usize, usize),
    expected: u8,
) {
    assert!(rt; lengths.0 <= text.len() && lengths.1 <= output.len() && lengths.2 <= working.len());
    answers(
        rt,
        &text[0..lengths.0],
        &mut output[0..lengths.1],
        &mut working[0..lengths.2],
        expected,
    );
}

// Lengths of text, output and working bytes, and the number that the call answers.
const CASES: [(usize, usize, usize, u8); 13] = [
    (64, 64, 48, 0),
    (4096, 4096, 4080, 0),
    (0, 0, 4080, 1),
    (48, 48, 4080, 1),
    (72, 72, 4080, 1),
    (4112, 4112, 4096, 1),
    (64, 64, 47, 3),
    // the first test that fails gives the number
    (65, 64, 16, 1),
    (64, 65, 16, 2),
    (64, 63, 16, 2),
    (64, 64, 16, 3),
    (64, 0, 0, 2),
    (64, 64, 0, 3),
];

fn all_cases(rt: &impl Abort, text: &[u8], output: &mut [u8], working: &mut [u8]) {
    for (t, o, w, expected) in CASES {
        lengths(rt, text, output, working, (t, o, w), expected);
    }
}

#[test]
fn calls(rt: HostRuntime) {
    let text = [7; 4112];
    let mut output = [0; 4112];
    let mut working = [0; 4096];
    all_cases(&rt, &text, &mut output, &mut working);
}

// That the constant of a reference is that of what it points to is in no contract.
#[test]
fn key_lengths(rt: HostRuntime) {
    assert_eq!(rt; Aes128::KEY_LENGTH, 16);
    assert_eq!(rt; <&Aes128 as BlockFunction>::KEY_LENGTH, 16);
    assert_eq!(rt; <&Speck128 as BlockFunction>::KEY_LENGTH, 16);
    assert_eq!(rt; <&AnyCipher as BlockFunction>::KEY_LENGTH, 16);
    assert_eq!(rt; <&Always as BlockFunction>::KEY_LENGTH, 0);
}
