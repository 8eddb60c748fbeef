ghost use Rattle.std.specs.Prelude.{◌≡◌, ◌/◌, ◌%◌, length};
ghost use Rattle.std.specs.Simd.{first_chunks};
ghost use Rattle.polynomials.specs.Blocks.{blocks_of};
ghost use Rattle.sector.specs.Texts.{joined};
ghost use Rattle.sector.specs.Transform.{counter_mode};

use ciphers::function::BlockFunction;
use elements::element::Arithmetic;
use elements::values::Block;

// The blocks of a text.
#[tactic(auto, using(crate::proofs::Loops::all_chunks))]
fn blocks_in(text: &[u8]) -> &[[u8; 16]]
    ensures blocks { result.now ≡ first_chunks 16 (length text.now / 16) text.now }
    ensures many { length result.now ≡ length text.now / 16 }
{
    text.as_chunks().0
}

// Counter mode over the blocks of a tail, the first with the counter 1.
pub(crate) fn count<F: BlockFunction>(f: &F, z: Block, text: &[u8], output: &mut [u8])
    requires { (length output.old ≡ length text.now) × (length text.now % 16 ≡ 0) }
    ensures { output.new ≡ joined (counter_mode (F.function f.now) z 1 (blocks_of text.now)) }
{
    let blocks = blocks_in(text);
    for (k, x) in blocks.iter().enumerate() {
        let mask = f.call(z.add(Block::new(k as u128 + 1)));
        let y = Block::from_bytes(*x).add(mask).to_bytes();
        // By index: of what `as_chunks_mut` or `chunks_exact_mut` lent, the length alone is known afterwards.
        output[16 * k..16 * k + 16].copy_from_slice(&y);
    }
}
