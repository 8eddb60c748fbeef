ghost use Rattle.std.specs.Prelude.{◌≡◌, replicate};
ghost use Rattle.polynomials.specs.Blocks.{blocks_of};

use crate::lists::Elements;
use elements::values::Block;

// A list of blocks that lies as bytes, 16 to a block, and is read where it lies. What is left over at the end is
// no part of the list.
#[derive(Clone, Copy, Debug, PartialEq, Eq)]
pub struct Blocks<'a> {
    pub bytes: &'a [u8],
}

impl<'a> Elements<Block> for Blocks<'a> {
    ghost items = { λ s. blocks_of s.bytes.now };

    fn len(&self) -> usize {
        self.bytes.len() / 16
    }

    fn get(&self, i: usize) -> Option<Block> {
        let (pieces, _) = self.bytes.as_chunks();
        pieces.get(i).copied().map(Block::from_bytes)
    }
}

// A list of one element, `count` times.
#[derive(Clone, Copy, Debug, PartialEq, Eq)]
pub struct Repeated<E> {
    pub element: E,
    pub count: usize,
}

impl<E: Copy> Elements<E> for Repeated<E> {
    ghost items = { λ s. replicate s.count s.element };

    fn len(&self) -> usize {
        self.count
    }

    fn get(&self, i: usize) -> Option<E> {
        (i < self.count).then_some(self.element)
    }
}
