// The values of the element types. Each ghost field says that the number fits its width, so that a law about
// every value of a type is a law about the numbers that the machine holds, and no caller carries a premise.
ghost use Rattle.std.specs.Prelude.{◌^◌, ◌<◌};
ghost use Rattle.elements.specs.Degrees.{number};

// A byte as a polynomial over bits: bit i is the coefficient of z^i.
#[derive(Clone, Copy, Debug, PartialEq, Eq)]
pub struct Byte {
    pub value: u8,
    ghost fits: { value < 2 ^ 8 },
}

// A block as a polynomial over bits: the big-endian number of its 16 bytes, whose bit i is the coefficient of z^i.
#[derive(Clone, Copy, Debug, PartialEq, Eq)]
pub struct Block {
    pub value: u128,
    ghost fits: { value < 2 ^ 128 },
}

// A degree: absent, or a number of 32 bits.
#[derive(Clone, Copy, Debug, PartialEq, Eq)]
pub struct Degree {
    pub value: Option<u32>,
    ghost fits: { number value < 2 ^ 32 },
}
