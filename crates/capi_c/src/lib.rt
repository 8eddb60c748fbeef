#![tactic(auto)]

// The functions for callers in C, on byte slices: each slice is a pointer and then a length (capi/include/kizdolur.h). Each
// answers 0 or the number of a refusal, as C has no Result, and has a name and a signature of its own.
ghost use Rattle.std.specs.Prelude.{◌≡◌, length, replicate};
ghost use Rattle.elements.specs.Values.{block_operations};
ghost use Rattle.ciphers.specs.Aes.{aes_128};
ghost use Rattle.ciphers.specs.Speck.{speck};
ghost use Rattle.sector.specs.declared.text.Direction.TheVariants.{Encipher, Decipher};
ghost use Rattle.capi.specs.Blocks.{block_in, product_answer, cipher_answer, given};
ghost use Rattle.capi.specs.Sectors.{cipher_of, hash_of, sector_answer, transformed_or};

use capi::blocks::{block_by, block_product};
use capi::sectors::transform_by;
use ciphers::choice::Cipher;
use sector::text::Direction::{Decipher, Encipher};

// The product of two blocks. Answers 0, or 2 where one of the three is not 16 bytes long; `product` is then as it was.
#[unsafe(no_mangle)]
pub extern "C" fn kizdolur_block_product(a: &[u8], b: &[u8], product: &mut [u8]) -> u8
    ensures answer { result ≡ product_answer a.now b.now product.old }
    ensures output { product.new ≡ given result (block_operations.product (block_in a.now) (block_in b.now)) product.old }
{
    block_product(a, b, product)
}

// AES-128 of one block. Answers 0; 6 where the key is not 16 bytes long; or 2 where the block or the output is not.
// Refused, the output is as it was.
#[unsafe(no_mangle)]
pub extern "C" fn kizdolur_aes128_block(key: &[u8], plain: &[u8], output: &mut [u8]) -> u8
    ensures answer { result ≡ cipher_answer key.now plain.now output.old }
    ensures output { output.new ≡ given result (aes_128 key.now (block_in plain.now)) output.old }
{
    block_by(Cipher::Aes, key, plain, output)
}

// Speck128/128 of one block, answered as AES-128 is.
#[unsafe(no_mangle)]
pub extern "C" fn kizdolur_speck128_block(key: &[u8], plain: &[u8], output: &mut [u8]) -> u8
    ensures answer { result ≡ cipher_answer key.now plain.now output.old }
    ensures output { output.new ≡ given result (speck key.now (block_in plain.now)) output.old }
{
    block_by(Cipher::Speck, key, plain, output)
}

// Enciphers the text of a sector: cipher 1 is AES-128 and 2 Speck128/128, hash 1 is the Horner hash and 2 the BRW hash.
// Answers 0; 6 for another cipher or hash, or a key that is not 16 bytes long; else the number of the transform's
// refusal. Refused, the output is as it was. The working bytes are zero afterwards, refused or not.
#[unsafe(no_mangle)]
pub extern "C" fn kizdolur_encipher(
    cipher: u8,
    hash: u8,
    key: &[u8],
    sector: u64,
    text: &[u8],
    output: &mut [u8],
    working: &mut [u8],
) -> u8
    ensures answer { result ≡ sector_answer cipher hash key.now text.now output.old working.old }
    ensures output { output.new ≡ transformed_or result Encipher (cipher_of cipher key.now) (hash_of hash) sector text.now output.old }
    ensures working { working.new ≡ replicate (length working.old) 0 }
{
    transform_by(Encipher, cipher, hash, key, sector, text, output, working)
}

// Deciphers the text of a sector, answered as `kizdolur_encipher` is.
#[unsafe(no_mangle)]
pub extern "C" fn kizdolur_decipher(
    cipher: u8,
    hash: u8,
    key: &[u8],
    sector: u64,
    text: &[u8],
    output: &mut [u8],
    working: &mut [u8],
) -> u8
    ensures answer { result ≡ sector_answer cipher hash key.now text.now output.old working.old }
    ensures output { output.new ≡ transformed_or result Decipher (cipher_of cipher key.now) (hash_of hash) sector text.now output.old }
    ensures working { working.new ≡ replicate (length working.old) 0 }
{
    transform_by(Decipher, cipher, hash, key, sector, text, output, working)
}
