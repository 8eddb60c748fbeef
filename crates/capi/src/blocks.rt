ghost use Rattle.std.specs.Prelude.{◌≡◌, Ok, Err, is_ok, if◌then◌else◌};
ghost use Rattle.elements.specs.Values.{block_operations};
ghost use Rattle.ciphers.specs.Choice.{cipher_of};
ghost use Rattle.sector.specs.declared.refusal.Refusal.TheVariants.{BufferLength};
ghost use Rattle.capi.specs.Blocks.{whole, block_in, bytes_out, product_result, product_answer, cipher_result, cipher_answer, given};

use ciphers::aes::Aes128;
use ciphers::choice::Cipher;
use ciphers::function::BlockFunction;
use ciphers::speck::Speck128;
use elements::element::Arithmetic;
use elements::values::Block;
use sector::cover::cover_stack;
use sector::numbers::answer_number;
use sector::refusal::Refusal;

// 16 bytes as an array, or this refusal.
pub(crate) fn sixteen(bytes: &[u8], refusal: Refusal) -> Result<[u8; 16], Refusal>
    ensures { result ≡ (if whole bytes.now then Ok bytes.now else Err refusal) }
{
    <[u8; 16]>::try_from(bytes).map_err(|_| refusal)
}

// Writes a block into 16 bytes.
#[tactic(auto, unfolding(crate::specs::Blocks::bytes_out))]
fn put_block(x: Block, output: &mut [u8]) -> Result<(), Refusal>
    ensures answer { result ≡ (if whole output.old then Ok tt else Err BufferLength) }
    ensures output { output.new ≡ (if is_ok result then bytes_out x else output.old) }
{
    if output.len() != 16 {
        return Err(Refusal::BufferLength);
    }
    output.copy_from_slice(&x.to_bytes());
    Ok(())
}

// Writes the product of two blocks.
fn put_product(a: &[u8], b: &[u8], product: &mut [u8]) -> Result<(), Refusal>
    ensures answer { result ≡ product_result a.now b.now product.old }
    ensures output { product.new ≡ (if is_ok result then bytes_out (block_operations.product (block_in a.now) (block_in b.now)) else product.old) }
{
    let x = Block::from_bytes(sixteen(a, Refusal::BufferLength)?);
    let y = Block::from_bytes(sixteen(b, Refusal::BufferLength)?);
    put_block(x.mul(y), product)
}

// The product of two blocks. Answers 0, or 2 where one of the three is not 16 bytes long; `product` is then as it was.
pub fn block_product(a: &[u8], b: &[u8], product: &mut [u8]) -> u8
    ensures answer { result ≡ product_answer a.now b.now product.old }
    ensures output { product.new ≡ given result (block_operations.product (block_in a.now) (block_in b.now)) product.old }
{
    answer_number(put_product(a, b, product))
}

// Writes one block, put through a cipher.
fn put_enciphered(
    cipher: Cipher,
    key: &[u8],
    plain: &[u8],
    output: &mut [u8],
) -> Result<(), Refusal>
    ensures answer { result ≡ cipher_result key.now plain.now output.old }
    ensures output { output.new ≡ (if is_ok result then bytes_out (cipher_of cipher key.now (block_in plain.now)) else output.old) }
{
    let key = sixteen(key, Refusal::Figures)?;
    let x = Block::from_bytes(sixteen(plain, Refusal::BufferLength)?);
    // By type: the key of either cipher, as `Cipher::keyed` has it, takes the room of the larger.
    let y = match cipher {
        Cipher::Aes => Aes128::new(key).call(x),
        Cipher::Speck => Speck128::new(key).call(x),
    };
    put_block(y, output)
}

// The same, answered by number. It leaves the stack uncovered.
#[inline(never)]
fn uncovered(cipher: Cipher, key: &[u8], plain: &[u8], output: &mut [u8]) -> u8
    ensures answer { result ≡ cipher_answer key.now plain.now output.old }
    ensures output { output.new ≡ given result (cipher_of cipher key.now (block_in plain.now)) output.old }
{
    answer_number(put_enciphered(cipher, key, plain, output))
}

// One block through a cipher under a key. Answers 0; 6 where the key is not 16 bytes long; or 2 where the block or the output is
// not. Refused, the output is as it was.
pub fn block_by(cipher: Cipher, key: &[u8], plain: &[u8], output: &mut [u8]) -> u8
    ensures answer { result ≡ cipher_answer key.now plain.now output.old }
    ensures output { output.new ≡ given result (cipher_of cipher key.now (block_in plain.now)) output.old }
{
    let answer = uncovered(cipher, key, plain, output);
    answer + cover_stack(answer)
}
