use elements::values::Block;

// The first two blocks of a text, at any step.
#[derive(Clone, Copy, Debug, PartialEq, Eq)]
pub struct Front {
    pub first: Block,
    pub second: Block,
}

#[derive(Clone, Copy, Debug, PartialEq, Eq)]
pub enum Direction {
    Encipher,
    Decipher,
}
