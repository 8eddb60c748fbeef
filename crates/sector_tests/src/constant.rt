ghost use Rattle.elements.specs.Values.{block};

use ciphers::function::BlockFunction;
use elements::values::Block;

// The block function whose value is always this block.
#[derive(Drop)]
pub struct Always {
    pub value: u128,
}

impl BlockFunction for Always {
    const KEY_LENGTH: usize = 0;

    ghost key_length = { 0 };

    ghost function = { λ f _. block f.value };

    fn key_bytes() -> usize {
        Self::KEY_LENGTH
    }

    fn call(&self, _x: Block) -> Block {
        Block::new(self.value)
    }
}
