ghost use Rattle.std.specs.Prelude.{◌≡◌, Some, ok_or};
ghost use Rattle.std.specs.Str.{bytes_eq};
ghost use Rattle.answers.specs.Kinds.{kind_word, kind_named, cipher_kind, polynomial_kind, cipher_by, hash_by};
ghost use Rattle.answers.specs.declared.kinds.OtherKind.{OtherKind};

use crate::answer::Polynomial;
use ciphers::choice::Cipher;
use hashing::choice::AnyHash;
use std::fmt;

// What an answer is about. Its line begins with the word for it, but for a sector's, which begins with the word for its
// cipher.
#[derive(Clone, Copy, Debug, PartialEq, Eq)]
pub enum Kind {
    Aes,
    Speck,
    Product,
    Horner,
    Brw,
    Sector,
}

// A kind that names no cipher, or no hash.
#[derive(Clone, Copy, Debug, PartialEq, Eq)]
pub struct OtherKind(pub Kind);

// Every kind.
const KINDS: [Kind; 6] = [
    Kind::Aes,
    Kind::Speck,
    Kind::Product,
    Kind::Horner,
    Kind::Brw,
    Kind::Sector,
];

impl Kind {
    // The word for the kind.
    pub fn word(self) -> &'static str
        ensures { result.now ≡ kind_word self }
    {
        match self {
            Kind::Aes => "aes",
            Kind::Speck => "speck",
            Kind::Product => "product",
            Kind::Horner => "horner",
            Kind::Brw => "brw",
            Kind::Sector => "sector",
        }
    }

    fn is_named(self, word: &[u8]) -> bool
        ensures { result ≡ bytes_eq word.now (kind_word self) }
    {
        word == self.word().as_bytes()
    }

    // The kind that a word names.
    #[tactic(auto, unfolding(crate::specs::Kinds::kind_named), using(crate::proofs::Names::names))]
    pub fn named(word: &[u8]) -> Option<Kind>
        ensures value { result ≡ kind_named word.now }
        ensures names { (k : Kind) → (result ≡ Some k → word.now ≡ kind_word k) × (word.now ≡ kind_word k → result ≡ Some k) }
    {
        KINDS.iter().copied().find(|kind| kind.is_named(word))
    }
}

impl fmt::Display for Kind {
    ghost output = { λ k. Some (kind_word k) };

    fn fmt<W: fmt::Write>(&self, f: &mut fmt::Formatter<W>) -> fmt::Result {
        f.write_str(self.word())
    }
}

impl From<Cipher> for Kind {
    ghost from_gives = { λ c r. r ≡ cipher_kind c };

    fn from(cipher: Cipher) -> Kind {
        match cipher {
            Cipher::Aes => Kind::Aes,
            Cipher::Speck => Kind::Speck,
        }
    }
}

impl From<Polynomial> for Kind {
    ghost from_gives = { λ p r. r ≡ polynomial_kind p };

    fn from(polynomial: Polynomial) -> Kind {
        match polynomial {
            Polynomial::Horner => Kind::Horner,
            Polynomial::Brw => Kind::Brw,
        }
    }
}

impl TryFrom<Kind> for Cipher {
    type Error = OtherKind;

    ghost try_from_gives = { λ k r. r ≡ ok_or (cipher_by (Some k)) (record { 0 = k }) };

    fn try_from(kind: Kind) -> Result<Cipher, OtherKind> {
        match kind {
            Kind::Aes => Ok(Cipher::Aes),
            Kind::Speck => Ok(Cipher::Speck),
            _ => Err(OtherKind(kind)),
        }
    }
}

impl TryFrom<Kind> for AnyHash {
    type Error = OtherKind;

    ghost try_from_gives = { λ k r. r ≡ ok_or (hash_by (Some k)) (record { 0 = k }) };

    fn try_from(kind: Kind) -> Result<AnyHash, OtherKind> {
        match kind {
            Kind::Horner => Ok(AnyHash::Horner),
            Kind::Brw => Ok(AnyHash::Brw),
            _ => Err(OtherKind(kind)),
        }
    }
}
