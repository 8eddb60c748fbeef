ghost use Rattle.std.specs.Prelude.{◌≡◌, ok_or};
ghost use Rattle.elements.specs.declared.values.Block.{Block};
ghost use Rattle.ciphers.specs.Choice.{cipher_of, cipher_numbered, keyed_of};

use crate::aes::Aes128;
use crate::function::BlockFunction;
use crate::speck::Speck128;
use elements::values::Block;

// The ciphers that there are.
#[derive(Clone, Copy, Debug, PartialEq, Eq)]
pub enum Cipher {
    Aes,
    Speck,
}

// A number that names no cipher.
#[derive(Clone, Copy, Debug, PartialEq, Eq)]
pub struct UnknownCipher(pub u8);

// A cipher under one key, where the choice of the cipher is made at run time. An enum, as there is no heap for a dyn.
#[derive(Clone, Copy)]
pub enum AnyCipher {
    Aes(Aes128),
    Speck(Speck128),
}

// The numbers are those of sheets and of the functions for C.
impl TryFrom<u8> for Cipher {
    type Error = UnknownCipher;

    ghost try_from_gives = { λ n r. r ≡ ok_or (cipher_numbered n) (record { 0 = n }) };

    fn try_from(number: u8) -> Result<Cipher, UnknownCipher> {
        match number {
            1 => Ok(Cipher::Aes),
            2 => Ok(Cipher::Speck),
            _ => Err(UnknownCipher(number)),
        }
    }
}

impl Cipher {
    // The made value is this cipher under this key.
    pub fn keyed(self, key: [u8; 16]) -> AnyCipher
        ensures { (x : Block) → keyed_of result x ≡ cipher_of self key x }
    {
        match self {
            Cipher::Aes => AnyCipher::Aes(Aes128::new(key)),
            Cipher::Speck => AnyCipher::Speck(Speck128::new(key)),
        }
    }
}

impl BlockFunction for AnyCipher {
    const KEY_LENGTH: usize = 16;

    ghost key_length = { 16 };

    ghost function = { keyed_of };

    fn key_bytes() -> usize {
        Self::KEY_LENGTH
    }

    fn call(&self, x: Block) -> Block {
        match self {
            AnyCipher::Aes(aes) => aes.call(x),
            AnyCipher::Speck(speck) => speck.call(x),
        }
    }
}
