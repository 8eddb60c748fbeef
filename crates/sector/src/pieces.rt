ghost use Rattle.std.specs.Prelude.{◌≡◌, ◌≤◌, ◌++◌, length, take};
ghost use Rattle.std.specs.Int.Digits.{number_from_digits};
ghost use Rattle.elements.specs.Values.{block};
ghost use Rattle.sector.specs.Texts.{bytes, front_of};

use crate::text::Front;
use elements::values::Block;

// The block that a text begins with.
fn first_block(text: &[u8]) -> Block
    requires { 16 ≤ length text.now }
    ensures { result ≡ block (number_from_digits 256 (take 16 text.now)) }
{
    Block::from_bytes(*text.first_chunk().unwrap())
}

pub(crate) fn get_front(text: &[u8]) -> Front
    requires { 32 ≤ length text.now }
    ensures { result ≡ front_of text.now }
{
    Front {
        first: first_block(text),
        second: first_block(&text[16..]),
    }
}

#[tactic(auto, unfolding(crate::specs::Texts::bytes))]
pub(crate) fn put_front(output: &mut [u8], front: Front)
    requires { length output.old ≡ 32 }
    ensures { output.new ≡ bytes front.first ++ bytes front.second }
{
    let (first, second) = output.split_at_mut(16);
    first.copy_from_slice(&front.first.to_bytes());
    second.copy_from_slice(&front.second.to_bytes());
}
