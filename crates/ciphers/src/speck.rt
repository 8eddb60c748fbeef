ghost use Rattle.std.specs.Prelude.{◌≡◌};
ghost use Rattle.elements.specs.declared.values.Block.{Block};
ghost use Rattle.ciphers.specs.Speck.{halves, joined, round as after_round, speck};
ghost use Rattle.ciphers.specs.SpeckViews.{pair, speck_of};

use crate::function::BlockFunction;
use elements::values::Block;

// Two words of 64 bits, the high half of a block first: the text's u and v, or the key's l and k.
#[derive(Clone, Copy)]
struct Words {
    u: u64,
    v: u64,
}

// The halves of a block.
impl From<Block> for Words {
    ghost from_gives = { λ x w. pair w ≡ halves x };

    fn from(x: Block) -> Words {
        Words {
            u: (x.value >> 64) as u64,
            v: (x.value % (1 << 64)) as u64,
        }
    }
}

// The block of the two.
impl From<Words> for Block {
    ghost from_gives = { λ w x. x ≡ joined (pair w) };

    fn from(w: Words) -> Block {
        Block::new(u128::from(w.u) * (1 << 64) + u128::from(w.v))
    }
}

impl Words {
    // One round under a round key.
    fn round(&mut self, key: u64)
        ensures { pair self.new ≡ after_round key (pair self.old) }
    {
        self.u = self.u.rotate_right(8).wrapping_add(self.v) ^ key;
        self.v = self.v.rotate_left(3) ^ self.u;
    }
}

// Speck128/128 under one key.
#[derive(Clone, Copy)]
pub struct Speck128 {
    key: Words,
}

impl Speck128 {
    // The made value is Speck under this key.
    pub fn new(key: [u8; 16]) -> Speck128
        ensures { (x : Block) → speck_of result x ≡ speck key x }
    {
        Speck128 {
            key: Words::from(Block::from_bytes(key)),
        }
    }
}

impl BlockFunction for Speck128 {
    const KEY_LENGTH: usize = 16;

    ghost key_length = { 16 };

    ghost function = { speck_of };

    fn key_bytes() -> usize {
        Self::KEY_LENGTH
    }

    fn call(&self, x: Block) -> Block {
        let mut text = Words::from(x);
        let mut key = self.key;
        for i in 0..32u64 {
            // k is the round key, and the key goes on by the same round, under the round's number.
            text.round(key.v);
            key.round(i);
        }
        Block::from(text)
    }
}
