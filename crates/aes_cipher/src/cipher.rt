ghost use Rattle.std.specs.Prelude.{◌≡◌, ◌-◌, ◌≤◌, length};
ghost use Rattle.elements.specs.declared.values.Block.{Block};
ghost use Rattle.aes_rules.specs.Aes.{aes_with, aes_128};
ghost use Rattle.aes_cipher.specs.Views.{words_of, aes_of};

use crate::schedule::{CipherKey, RoundKey};
use crate::state::State;
use elements::values::Block;

// AES under a schedule, in one round for each row after the first.
fn encipher_with(rows: &[RoundKey], x: Block) -> Block
    requires { 2 ≤ length rows.now }
    ensures { result ≡ aes_with (length rows.now - 1) (words_of rows.now) x }
{
    let [first, middle @ .., last] = rows else {
        unreachable!()
    };
    let mut state = State::of(x);
    state.add(first);
    for row in middle {
        state.round(row);
    }
    state.last_round(last);
    state.block()
}

// AES-128 under one key.
#[derive(Clone, Copy)]
pub struct Aes128 {
    rows: [RoundKey; 11],
}

impl Aes128 {
    // The made value is AES-128 under this key.
    pub fn new(key: [u8; 16]) -> Aes128
        ensures { (x : Block) → aes_of result x ≡ aes_128 key x }
    {
        Aes128 {
            rows: CipherKey::of(&key).expand(),
        }
    }

    // AES-128 of one block.
    pub fn encipher(&self, x: Block) -> Block
        ensures { result ≡ aes_of self.now x }
    {
        encipher_with(&self.rows, x)
    }
}
