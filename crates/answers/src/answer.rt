ghost use Rattle.std.specs.Prelude.{◌≡◌};
ghost use Rattle.answers.specs.Reading.{kind_of};
ghost use Rattle.answers.specs.Views.{known_of};

use crate::kinds::Kind;
use ciphers::choice::Cipher;
use elements::values::Block;
use hashing::choice::AnyHash;
use text::hex::HexBlocks;

// The polynomials that known answers have values of. Horner's is the bare one, with no 1 before the list.
#[derive(Clone, Copy, Debug, PartialEq, Eq)]
pub enum Polynomial {
    Horner,
    Brw,
}

// A known answer: what to work out, and the result that it must have. A list, as a sector's text is, stays where its
// digits lie.
#[derive(Clone, Copy, Debug, PartialEq, Eq)]
pub enum Answer<'a> {
    Block {
        cipher: Cipher,
        key: Block,
        plain: Block,
        enciphered: Block,
    },
    Product {
        a: Block,
        b: Block,
        result: Block,
    },
    Polynomial {
        polynomial: Polynomial,
        key: Block,
        list: HexBlocks<'a>,
        result: Block,
    },
    Sector {
        cipher: Cipher,
        hash: AnyHash,
        key: Block,
        number: u64,
        plain: HexBlocks<'a>,
        enciphered: HexBlocks<'a>,
    },
}

impl Answer<'_> {
    // What the answer is about.
    pub fn kind(&self) -> Kind
        ensures { result ≡ kind_of (known_of self.now) }
    {
        match *self {
            Answer::Block { cipher, .. } => Kind::from(cipher),
            Answer::Product { .. } => Kind::Product,
            Answer::Polynomial { polynomial, .. } => Kind::from(polynomial),
            Answer::Sector { .. } => Kind::Sector,
        }
    }
}

// A line that nobody can read.
#[derive(Clone, Copy, Debug, PartialEq, Eq)]
pub struct NotUnderstood;
