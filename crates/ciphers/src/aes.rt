ghost use Rattle.aes_cipher.specs.Views.{aes_of};

use crate::function::BlockFunction;
pub use aes_cipher::cipher::Aes128;
use elements::values::Block;

impl BlockFunction for Aes128 {
    const KEY_LENGTH: usize = 16;

    ghost key_length = { 16 };

    ghost function = { aes_of };

    fn key_bytes() -> usize {
        Self::KEY_LENGTH
    }

    fn call(&self, x: Block) -> Block {
        self.encipher(x)
    }
}
