ghost use Rattle.std.specs.Prelude.{◌≡◌, ◌∷◌, ◌==◌, position};
ghost use Rattle.text.specs.Words.{words};
ghost use Rattle.text.specs.Views.{words_left};

// The first word of a text, and what follows the space after it, if there is a space.
#[derive(Clone, Copy, Debug, PartialEq, Eq)]
pub struct Cut<'a> {
    pub word: &'a [u8],
    pub rest: Option<&'a [u8]>,
}

// Where the first space is.
fn first_space(text: &[u8]) -> Option<usize>
    ensures { result ≡ position (λ c. c == 32) text.now }
{
    text.iter().position(|c| *c == b' ')
}

// A text cut at its first space.
#[tactic(auto, using(crate::proofs::Spaces::words_cut, crate::proofs::Spaces::words_uncut, std::proofs::lemmas::List::take_rest))]
pub fn first_word(text: &[u8]) -> Cut<'_>
    ensures { words text.now ≡ result.word.now ∷ words_left result.rest }
{
    match first_space(text) {
        Some(i) => Cut {
            word: &text[..i],
            rest: Some(&text[i + 1..]),
        },
        None => Cut {
            word: text,
            rest: None,
        },
    }
}
