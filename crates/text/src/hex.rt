ghost use Rattle.std.specs.Prelude.{◌≡◌, ◌≤◌, length};
ghost use Rattle.std.specs.Option.{option_map};
ghost use Rattle.text.specs.Hex.{digit as digit_of, all_digits, digits_number, hex_block as block_of_digits, hex_blocks_of, one_block, some_blocks, block_word, list_word};
ghost use Rattle.text.specs.Views.{blocks_in};

use elements::values::Block;
use polynomials::lists::Elements;

// The value of a hex digit in either case.
#[tactic(auto, using(std::proofs::lemmas::Bool::Decides::nat_tests), unfolding(crate::specs::Hex::digit))]
fn digit(c: u8) -> Option<u32>
    ensures { result ≡ digit_of c }
{
    char::from(c).to_digit(16)
}

fn is_hex(text: &[u8]) -> bool
    ensures { result ≡ all_digits text.now }
{
    text.iter().all(|c| digit(*c).is_some())
}

// The number that digits write in a base, the highest first. What is no digit counts as 0.
#[tactic(auto, using(crate::proofs::Digits::number_digit, crate::proofs::Digits::number_room, crate::proofs::Digits::digit_lt))]
pub(crate) fn number_of(base: u8, digits: &[u8]) -> u128
    requires few { length digits.now ≤ 32 }
    requires small { base ≤ 16 }
    ensures { result ≡ digits_number base digits.now }
{
    let mut value = 0u128;
    for c in digits {
        value = value * u128::from(base) + u128::from(digit(*c).unwrap_or(0));
    }
    value
}

// The block that so many digits write.
#[tactic(auto, unfolding(crate::specs::Hex::hex_block))]
fn hex_block(digits: &[u8]) -> Block
    requires { length digits.now ≤ 32 }
    ensures { result ≡ block_of_digits digits.now }
{
    Block::new(number_of(16, digits))
}

// A list of blocks that lies as hex digits, 32 to a block, and is read where it lies. What is left over at the end is
// no part of the list, and what is no digit counts as 0.
#[derive(Clone, Copy, Debug, PartialEq, Eq)]
pub struct HexBlocks<'a> {
    pub digits: &'a [u8],
}

impl<'a> Elements<Block> for HexBlocks<'a> {
    ghost items = { λ s. hex_blocks_of s.digits.now };

    fn len(&self) -> usize {
        self.digits.as_chunks::<32>().0.len()
    }

    #[tactic(auto, using(crate::proofs::Digits::blocks_at))]
    fn get(&self, i: usize) -> Option<Block> {
        let (blocks, _) = self.digits.as_chunks::<32>();
        blocks.get(i).map(|digits| hex_block(digits))
    }
}

// Whether a word is the digits of blocks, of one at least.
fn is_blocks(word: &[u8]) -> bool
    ensures { result ≡ some_blocks word.now }
{
    !word.is_empty() && word.len() % 32 == 0 && is_hex(word)
}

// The block that a word writes, if the word is 32 hex digits.
#[tactic(auto, unfolding(crate::specs::Hex::block_word))]
pub fn read_block(word: &[u8]) -> Option<Block>
    ensures { result ≡ block_word word.now }
{
    let digits = word.as_array::<32>()?;
    // Not by `then_some`, which would work the block out before the test.
    if is_hex(digits) {
        Some(hex_block(digits))
    } else {
        None
    }
}

// The list that a word writes: a dash for the empty one, or the digits of its blocks.
#[tactic(auto, unfolding(crate::specs::Hex::list_word))]
pub fn read_list(word: &[u8]) -> Option<HexBlocks<'_>>
    ensures { option_map blocks_in result ≡ list_word word.now }
{
    if word == b"-".as_slice() {
        Some(HexBlocks { digits: &[] })
    } else {
        is_blocks(word).then_some(HexBlocks { digits: word })
    }
}
