ghost use Rattle.std.specs.Prelude.{◌≡◌, ℕ, List, [], ◌∷◌, ◌++◌, ◌≢◌};
ghost use Rattle.std.specs.Option.{option_map};
ghost use Rattle.answers.specs.Reading.{Known, understood, read, remark, three, six, with_all, of_product, answer_of, by_kind, sector_texts, sector_of, known};
ghost use Rattle.answers.specs.Rendering.{Written};
ghost use Rattle.answers.specs.Views.{three_of, six_of, of_cipher, of_polynomial, known_of, said};
ghost use Rattle.text.specs.Hex.{block_word, list_word};
ghost use Rattle.text.specs.Views.{words_left, blocks_in};
ghost use Rattle.text.specs.Words.{words};

use crate::answer::{Answer, NotUnderstood, Polynomial};
use crate::kinds::Kind;
use ciphers::choice::Cipher;
use hashing::choice::AnyHash;
use polynomials::lists::Elements;
use text::hex::{HexBlocks, read_block, read_list};
use text::numbers::read_number;
use text::words::first_word;

// The words of an answer's three fields. In an array, no name would say which is which.
#[derive(Clone, Copy, Debug, PartialEq, Eq)]
struct Three<'a> {
    first: &'a [u8],
    second: &'a [u8],
    third: &'a [u8],
}

// What is left of a line as three words, neither more nor fewer.
fn three_words(text: Option<&[u8]>) -> Option<Three<'_>>
    ensures { option_map three_of result ≡ three (words_left text.entry) }
{
    let first = first_word(text?);
    let second = first_word(first.rest?);
    let third = first_word(second.rest?);
    third.rest.is_none().then_some(Three {
        first: first.word,
        second: second.word,
        third: third.word,
    })
}

// The answer of a cipher with these fields.
fn read_enciphered<'a>(cipher: Cipher, words: Three<'a>) -> Option<Answer<'a>>
    ensures { option_map known_of result ≡ with_all (of_cipher cipher) (block_word words.entry.first.now) (block_word words.entry.second.now) (block_word words.entry.third.now) }
{
    let key = read_block(words.first)?;
    let enciphered = read_block(words.third)?;
    Some(Answer::Block {
        cipher,
        key,
        plain: read_block(words.second)?,
        enciphered,
    })
}

// The answer of a product with these fields.
fn read_product<'a>(words: Three<'a>) -> Option<Answer<'a>>
    ensures { option_map known_of result ≡ with_all of_product (block_word words.entry.first.now) (block_word words.entry.second.now) (block_word words.entry.third.now) }
{
    let a = read_block(words.first)?;
    let result = read_block(words.third)?;
    Some(Answer::Product {
        a,
        b: read_block(words.second)?,
        result,
    })
}

// The answer of a polynomial with these fields.
fn read_value<'a>(polynomial: Polynomial, words: Three<'a>) -> Option<Answer<'a>>
    ensures { option_map known_of result ≡ with_all (of_polynomial polynomial) (block_word words.entry.first.now) (list_word words.entry.second.now) (block_word words.entry.third.now) }
{
    // The list last: it may be long, and is not read where one of the blocks is none.
    let key = read_block(words.first)?;
    let result = read_block(words.third)?;
    let list = read_list(words.second)?;
    Some(Answer::Polynomial {
        polynomial,
        key,
        list,
        result,
    })
}

// The answer of a kind with these fields.
fn read_fields<'a>(kind: Kind, words: Three<'a>) -> Option<Answer<'a>>
    ensures { option_map known_of result ≡ answer_of kind (three_of words.entry) }
{
    match kind {
        Kind::Aes => read_enciphered(Cipher::Aes, words),
        Kind::Speck => read_enciphered(Cipher::Speck, words),
        Kind::Product => read_product(words),
        Kind::Horner => read_value(Polynomial::Horner, words),
        Kind::Brw => read_value(Polynomial::Brw, words),
        Kind::Sector => None,
    }
}

// The answer that a line says by its words, of which the first is the kind's.
fn read_by_kind(line: &[u8]) -> Option<Answer<'_>>
    ensures { option_map known_of result ≡ by_kind (words line.now) }
{
    let cut = first_word(line);
    let kind = Kind::named(cut.word)?;
    read_fields(kind, three_words(cut.rest)?)
}

// The words of a sector's line.
#[derive(Clone, Copy, Debug, PartialEq, Eq)]
struct Six<'a> {
    cipher: &'a [u8],
    hash: &'a [u8],
    key: &'a [u8],
    fields: Three<'a>,
}

// A line as six words, neither more nor fewer.
fn six_words(line: &[u8]) -> Option<Six<'_>>
    ensures { option_map six_of result ≡ six (words line.now) }
{
    let cipher = first_word(line);
    let hash = first_word(cipher.rest?);
    let key = first_word(hash.rest?);
    let fields = three_words(key.rest)?;
    Some(Six {
        cipher: cipher.word,
        hash: hash.word,
        key: key.word,
        fields,
    })
}

// Whether two texts can be those of a sector.
pub fn are_sectors(plain: &HexBlocks, enciphered: &HexBlocks) -> bool
    ensures { result ≡ sector_texts (blocks_in plain.now) (blocks_in enciphered.now) }
{
    let n = plain.len();
    (4..=256).contains(&n) && enciphered.len() == n
}

// The sector's answer with these words.
fn read_sector<'a>(words: Six<'a>) -> Option<Answer<'a>>
    ensures { option_map known_of result ≡ sector_of (six_of words.entry) }
{
    let cipher = Cipher::try_from(Kind::named(words.cipher)?).ok()?;
    let hash = AnyHash::try_from(Kind::named(words.hash)?).ok()?;
    let key = read_block(words.key)?;
    let number = read_number(words.fields.first)?;
    let plain = read_list(words.fields.second)?;
    let enciphered = read_list(words.fields.third)?;
    if !are_sectors(&plain, &enciphered) {
        return None;
    }
    Some(Answer::Sector {
        cipher,
        hash,
        key,
        number,
        plain,
        enciphered,
    })
}

// The answer that a line says by its words.
fn read_words(line: &[u8]) -> Option<Answer<'_>>
    ensures { option_map known_of result ≡ known (words line.now) }
{
    match six_words(line) {
        Some(words) => read_sector(words),
        None => read_by_kind(line),
    }
}

// Whether a line is to be passed over: an empty one, or one that begins with '#'.
fn is_remark(line: &[u8]) -> bool
    ensures { result ≡ remark line.now }
{
    matches!(line, [] | [b'#', ..])
}

// What a line says: nothing, if it is empty or a remark, or else an answer. The line comes without the LF that ends it.
pub fn read_line(line: &[u8]) -> Result<Option<Answer<'_>>, NotUnderstood>
    ensures value { said result ≡ read line.now }
    ensures written { (k : Known) → (said result ≡ understood k → Written k line.now) × (Written k line.now → said result ≡ understood k) }
{
    if is_remark(line) {
        return Ok(None);
    }
    read_words(line).map(Some).ok_or(NotUnderstood)
}

// A line without the LF that ends it. The last line of an input may have none.
pub fn without_end(line: &[u8]) -> &[u8]
    ensures ended { (t : List ℕ) → line.now ≡ t ++ (10 ∷ []) → result.now ≡ t }
    ensures open_ended { ((t : List ℕ) → line.now ≢ t ++ (10 ∷ [])) → result.now ≡ line.now }
{
    line.strip_suffix(b"\n").unwrap_or(line)
}
