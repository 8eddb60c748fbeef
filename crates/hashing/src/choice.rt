ghost use Rattle.std.specs.Prelude.{◌≡◌, ok_or};
ghost use Rattle.hashing.specs.Choice.{hash_of, hash_numbered};

use crate::{BlockHash, BrwHash, HornerHash};
use elements::values::Block;
use polynomials::views::Blocks;

// A hash, where the choice is made at run time. An enum, as there is no heap for a dyn.
#[derive(Clone, Copy, Debug, PartialEq, Eq)]
pub enum AnyHash {
    Horner,
    Brw,
}

// A number that names no hash.
#[derive(Clone, Copy, Debug, PartialEq, Eq)]
pub struct UnknownHash(pub u8);

// The numbers are those of sheets and of the functions for C.
impl TryFrom<u8> for AnyHash {
    type Error = UnknownHash;

    ghost try_from_gives = { λ n r. r ≡ ok_or (hash_numbered n) (record { 0 = n }) };

    fn try_from(number: u8) -> Result<AnyHash, UnknownHash> {
        match number {
            1 => Ok(AnyHash::Horner),
            2 => Ok(AnyHash::Brw),
            _ => Err(UnknownHash(number)),
        }
    }
}

impl BlockHash for AnyHash {
    ghost hash = { hash_of };

    fn call(&self, key: Block, list: Blocks<'_>) -> Block {
        match self {
            AnyHash::Horner => HornerHash.call(key, list),
            AnyHash::Brw => BrwHash.call(key, list),
        }
    }
}
