#![tactic(auto)]

ghost use Rattle.std.specs.Prelude.{◌≡◌, List};
ghost use Rattle.elements.specs.declared.values.Block.{Block};
ghost use Rattle.polynomials.specs.Blocks.{blocks_of};
ghost use Rattle.hashing.specs.Hashes.{horner_hash, brw_hash};

use elements::element::Arithmetic;
use elements::values::Block;
use polynomials::sums::{brw, horner_from};
use polynomials::views::Blocks;

pub mod choice;

// One function of a key and a list of blocks. Its call answers the function's value; code that is generic over
// hashes knows nothing else of it.
pub trait BlockHash {
    // The function itself.
    ghost hash: { Self → Block → List Block → Block };

    // The list is read where its bytes lie.
    fn call(&self, key: Block, list: Blocks<'_>) -> Block
        ensures { result ≡ hash self.now key (blocks_of list.entry.bytes.now) };
}

// A reference calls what it points to.
impl<H: BlockHash> BlockHash for &H {
    ghost hash = { λ g. H.hash g.now };

    fn call(&self, key: Block, list: Blocks<'_>) -> Block {
        (**self).call(key, list)
    }
}

// Horner of the list with a 1 put before it.
#[derive(Clone, Copy, Debug, PartialEq, Eq)]
pub struct HornerHash;

impl BlockHash for HornerHash {
    ghost hash = { λ _. horner_hash };

    fn call(&self, key: Block, list: Blocks<'_>) -> Block {
        horner_from(key, Block::one(), &list)
    }
}

// BRW of the list.
#[derive(Clone, Copy, Debug, PartialEq, Eq)]
pub struct BrwHash;

impl BlockHash for BrwHash {
    ghost hash = { λ _. brw_hash };

    // In a frame of its own: the powers are room that the caller would have, too, where it copies and calls.
    #[inline(never)]
    fn call(&self, key: Block, list: Blocks<'_>) -> Block {
        // Room for powers, filled with the key: zeros would be filled in by a call, whose first lookup saves registers.
        let mut powers = [key; 64];
        brw(key, &mut powers, &list).unwrap()
    }
}
