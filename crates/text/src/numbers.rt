ghost use Rattle.std.specs.Prelude.{◌≡◌};
ghost use Rattle.std.specs.Str.{all_ascii_digits};
ghost use Rattle.text.specs.Numbers.{number_digits, number_word};

use crate::hex::number_of;

fn is_decimal(text: &[u8]) -> bool
    ensures { result ≡ all_ascii_digits text.now }
{
    text.iter().all(|c| c.is_ascii_digit())
}

// Whether a word is digits as a number of 64 bits can have them, with no 0 before others.
fn is_number(word: &[u8]) -> bool
    ensures { result ≡ number_digits word.now }
{
    (1..=20).contains(&word.len()) && (word.len() == 1 || word[0] != b'0') && is_decimal(word)
}

// The number that a word writes, if it is one of 64 bits.
#[tactic(auto, unfolding(crate::specs::Numbers::number_word))]
pub fn read_number(word: &[u8]) -> Option<u64>
    ensures { result ≡ number_word word.now }
{
    if !is_number(word) {
        return None;
    }
    u64::try_from(number_of(10, word)).ok()
}
