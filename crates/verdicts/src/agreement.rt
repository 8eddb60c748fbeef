ghost use Rattle.std.specs.Prelude.{◌≡◌, Decides};
ghost use Rattle.elements.specs.Values.{block_operations};
ghost use Rattle.ciphers.specs.Choice.{cipher_of, keyed_of};
ghost use Rattle.answers.specs.Views.{known_of};
ghost use Rattle.text.specs.Views.{blocks_in};
ghost use Rattle.verdicts.specs.Agreement.{key_bytes, polynomial_of, Holds};

use crate::sectors::Setting;
use answers::answer::{Answer, Polynomial};
use ciphers::choice::{AnyCipher, Cipher};
use ciphers::function::BlockFunction;
use elements::element::Arithmetic;
use elements::values::Block;
use polynomials::sums::{brw, horner};
use sector::cipher::SectorCipher;
use text::hex::HexBlocks;

// A cipher under a key that is written as a block.
#[tactic(auto, unfolding(crate::specs::Agreement::key_bytes))]
fn keyed(cipher: Cipher, key: Block) -> AnyCipher
    ensures { (x : Block) → keyed_of result x ≡ cipher_of cipher (key_bytes key) x }
{
    cipher.keyed(key.to_bytes())
}

// The value of a polynomial. 64 places have room for the powers that any list needs.
fn value_of(polynomial: Polynomial, key: Block, list: &HexBlocks) -> Block
    ensures { result ≡ polynomial_of polynomial key (blocks_in list.now) }
{
    match polynomial {
        Polynomial::Horner => horner(key, list),
        Polynomial::Brw => brw(key, &mut [key; 64], list).unwrap(),
    }
}

// Whether the product works out what an answer says.
pub fn agrees(answer: &Answer) -> bool
    ensures { Decides result (Holds (known_of answer.now)) }
{
    match *answer {
        Answer::Block {
            cipher,
            key,
            plain,
            enciphered,
        } => keyed(cipher, key).call(plain) == enciphered,
        Answer::Product { a, b, result } => a.mul(b) == result,
        Answer::Polynomial {
            polynomial,
            key,
            list,
            result,
        } => value_of(polynomial, key, &list) == result,
        Answer::Sector {
            cipher,
            hash,
            key,
            number,
            plain,
            enciphered,
        } => Setting {
            cipher: SectorCipher {
                function: keyed(cipher, key),
                hash,
            },
            number,
        }
        .agrees(&plain, &enciphered),
    }
}
