ghost use Rattle.std.specs.Prelude.{◌≡◌, ◌*◌, ◌/◌, ◌<◌, ◌≤◌, length, slice_set};
ghost use Rattle.aes_rules.specs.Aes.{word as word_of, temp as temp_of, next_word, key_expansion};
ghost use Rattle.aes_cipher.specs.Views.{row_words, words_of};

use crate::state::Column;

// The key of one round: four words of the schedule, as plain bytes. With columns here, whose bytes have a ghost field, the
// checker would not cover a layer over lent memory that holds a keyed cipher.
#[derive(Clone, Copy)]
pub struct RoundKey {
    columns: [[u8; 4]; 4],
}

impl RoundKey {
    // Word c of the row.
    pub(crate) fn word(&self, c: usize) -> Column
        requires { c < 4 }
        ensures { result.bytes ≡ word_of (row_words self.now) c }
    {
        Column::from(self.columns[c])
    }

    // Replaces word c of the row.
    fn put(&mut self, c: usize, column: Column)
        requires { c < 4 }
        ensures { row_words self.new ≡ slice_set (row_words self.old) c column.bytes }
    {
        self.columns[c] = column.values();
    }
}

// Word i of the schedule that the rows hold.
fn word(rows: &[RoundKey], i: usize) -> Column
    requires { i < 4 * length rows.now }
    ensures { result.bytes ≡ word_of (words_of rows.now) i }
{
    rows[i / 4].word(i % 4)
}

// Replaces word i of the schedule that the rows hold.
fn put(rows: &mut [RoundKey], i: usize, column: Column)
    requires { i < 4 * length rows.old }
    ensures { words_of rows.new ≡ slice_set (words_of rows.old) i column.bytes }
{
    rows[i / 4].put(i % 4, column);
}

// A key of one to six words. Keys of more would have a case more in `temp`.
#[derive(Clone, Copy)]
pub struct CipherKey<'a> {
    bytes: &'a [u8],
    words: usize,
    ghost some: { 0 < words },
    ghost six: { words ≤ 6 },
    ghost whole: { 4 * words ≤ length bytes.now },
}

impl<'a> CipherKey<'a> {
    // The key of these bytes.
    pub(crate) fn of(bytes: &'a [u8]) -> CipherKey<'a>
        requires some { 4 ≤ length bytes.now }
        requires six { length bytes.now < 28 }
        ensures bytes { result.bytes ≡ bytes.entry }
        ensures words { result.words ≡ length bytes.now / 4 }
    {
        CipherKey {
            bytes,
            words: bytes.len() / 4,
        }
    }

    // The word before, as it goes into word i of the schedule.
    fn temp(&self, i: usize, before: Column) -> Column
        requires after { self.now.words ≤ i }
        requires ten { i < 11 * self.now.words }
        ensures { result.bytes ≡ temp_of self.now.words i before.bytes }
    {
        let mut temp = before;
        if i % self.words == 0 {
            temp.rotate();
            temp.sub();
            temp.add(&Column::of_round(i / self.words));
        }
        temp
    }

    // Word i of the schedule, from the words before it.
    fn next(&self, rows: &[RoundKey], i: usize) -> Column
        requires ten { i < 11 * self.now.words }
        requires within { i < 4 * length rows.now }
        ensures { result.bytes ≡ next_word self.now.words self.now.bytes.now i (words_of rows.now) }
    {
        if i < self.words {
            return Column::at(self.bytes, i);
        }
        let mut next = word(rows, i - self.words);
        next.add(&self.temp(i, word(rows, i - 1)));
        next
    }

    // The schedule of the key, in N rows.
    pub(crate) fn expand<const N: usize>(&self) -> [RoundKey; N]
        requires ten { 4 * N ≤ 11 * self.now.words }
        ensures { words_of result ≡ key_expansion self.now.words self.now.bytes.now (4 * N) }
    {
        let mut rows = [RoundKey {
            columns: [[0; 4]; 4],
        }; N];
        // By the index, which is the standard's: word i is made of words i - 1 and i - nk of the array that is being filled.
        for i in 0..4 * N {
            let column = self.next(&rows, i);
            put(&mut rows, i, column);
        }
        rows
    }
}
