ghost use Rattle.std.specs.Prelude.{◌≡◌};
ghost use Rattle.std.specs.Int.Digits.{number_from_digits};
ghost use Rattle.elements.specs.Endian.{big_endian};
ghost use Rattle.elements.specs.Values.{byte, block, block_operations, block_double};
ghost use Rattle.elements.specs.Instances.{byte_whole, byte_laws, block_whole, block_laws};

use crate::bits::BinaryField;
use crate::values::{Block, Byte};

impl Byte {
    pub fn new(value: u8) -> Byte
        ensures { result ≡ byte value }
    {
        Byte { value }
    }
}

// Reduced by z^8 + z^4 + z^3 + z + 1.
impl BinaryField for Byte {
    ghost width = { 8 };

    ghost feedback = { 0x1b };

    ghost bits = { λ x. x.value };

    ghost of = { byte };

    ghost whole = { byte_whole };

    ghost laws = { byte_laws };

    fn width() -> u32 {
        8
    }

    fn none() -> Byte {
        Byte::new(0)
    }

    fn last() -> Byte {
        Byte::new(1)
    }

    fn xor(self, other: Byte) -> Byte {
        Byte::new(self.value ^ other.value)
    }

    fn last_picks(self, other: Byte) -> Byte {
        Byte::new(other.value & 0u8.wrapping_sub(self.value % 2))
    }

    fn half(self) -> Byte {
        Byte::new(self.value / 2)
    }

    fn double(self) -> Byte {
        let first = Byte::new(self.value >> 7);
        Byte::new(self.value << 1).xor(first.last_picks(Byte::new(0x1b)))
    }
}

impl Block {
    pub fn new(value: u128) -> Block
        ensures { result ≡ block value }
    {
        Block { value }
    }

    // The block that lies as these bytes. Named as std's `from_be_bytes` is: a `From` would not tell numbers from bytes.
    pub fn from_bytes(bytes: [u8; 16]) -> Block
        ensures { result ≡ block (number_from_digits 256 bytes) }
    {
        Block::new(u128::from_be_bytes(bytes))
    }

    // The bytes that the block lies as.
    pub fn to_bytes(self) -> [u8; 16]
        ensures value { result ≡ big_endian 16 self.value }
        ensures back { block (number_from_digits 256 result) ≡ self }
    {
        self.value.to_be_bytes()
    }

    // The block times z.
    pub fn double(self) -> Block
        ensures value { result ≡ block_double self }
        ensures product { result ≡ block_operations.product (block 2) self }
    {
        BinaryField::double(self)
    }
}

// Reduced by z^128 + z^7 + z^2 + z + 1. The bodies are not shared with `Byte`: over std's operator traits each
// operator needs a law that says what it gives of the bits, which is longer than they are. Nor is `new`, which would
// then ask each caller to have the trait in scope.
impl BinaryField for Block {
    ghost width = { 128 };

    ghost feedback = { 0x87 };

    ghost bits = { λ x. x.value };

    ghost of = { block };

    ghost whole = { block_whole };

    ghost laws = { block_laws };

    fn width() -> u32 {
        128
    }

    fn none() -> Block {
        Block::new(0)
    }

    fn last() -> Block {
        Block::new(1)
    }

    fn xor(self, other: Block) -> Block {
        Block::new(self.value ^ other.value)
    }

    fn last_picks(self, other: Block) -> Block {
        Block::new(other.value & 0u128.wrapping_sub(self.value % 2))
    }

    fn half(self) -> Block {
        Block::new(self.value / 2)
    }

    fn double(self) -> Block {
        let first = Block::new(self.value >> 127);
        Block::new(self.value << 1).xor(first.last_picks(Block::new(0x87)))
    }
}
