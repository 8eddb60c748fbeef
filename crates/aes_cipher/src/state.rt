ghost use Rattle.std.specs.Prelude.{◌≡◌, ◌+◌, ◌*◌, ◌/◌, ◌%◌, ◌<◌, ◌≤◌, length};
ghost use Rattle.aes_rules.specs.Aes.{four, at as byte_at, word as word_of, word_at, sub_word, rot_word, add_words, rcon, mix_column, values, sub_bytes, shift_rows, mix_columns, add_round_key, round as after_round, last_round, input, output};
ghost use Rattle.aes_cipher.specs.Views.{word_of_bytes, columns_of, row_words};

use crate::schedule::RoundKey;
use aes_rules::tables::{round_constant, sub_byte};
use elements::element::Arithmetic;
use elements::values::{Block, Byte};
use polynomials::sums::sum_of_products;
use std::array;

// The matrix of MixColumns.
const MATRIX: [[u8; 4]; 4] = [[2, 3, 1, 1], [1, 2, 3, 1], [1, 1, 2, 3], [3, 1, 1, 2]];

// Four bytes: a column of the state, or a word of the key schedule.
#[derive(Clone, Copy)]
pub struct Column {
    pub bytes: [Byte; 4],
}

impl From<[u8; 4]> for Column {
    ghost from_gives = { λ bs w. w.bytes ≡ word_of_bytes bs };

    fn from(bytes: [u8; 4]) -> Column {
        Column {
            bytes: bytes.map(Byte::new),
        }
    }
}

impl Column {
    // The byte in row r.
    fn byte(&self, r: usize) -> Byte
        requires { r < 4 }
        ensures { result ≡ byte_at self.now.bytes r }
    {
        self.bytes[r]
    }

    // The word of bytes 4 * i to 4 * i + 3.
    pub(crate) fn at(from: &[u8], i: usize) -> Column
        requires { 4 * i + 4 ≤ length from.now }
        ensures { result.bytes ≡ word_at from.now i }
    {
        Column {
            bytes: array::from_fn(|r| Byte::new(from[4 * i + r])),
        }
    }

    // The word that round j adds in the key schedule.
    pub(crate) fn of_round(j: usize) -> Column
        requires from { 1 ≤ j }
        requires to { j ≤ 10 }
        ensures { result.bytes ≡ rcon j }
    {
        let zero = Byte::new(0);
        Column {
            bytes: [round_constant(j).unwrap(), zero, zero, zero],
        }
    }

    // SubBytes of one column, and SubWord.
    pub(crate) fn sub(&mut self)
        ensures { self.new.bytes ≡ sub_word self.old.bytes }
    {
        self.bytes = self.bytes.map(sub_byte);
    }

    // RotWord.
    pub(crate) fn rotate(&mut self)
        ensures { self.new.bytes ≡ rot_word self.old.bytes }
    {
        self.bytes.rotate_left(1);
    }

    // The sum, byte by byte.
    pub(crate) fn add(&mut self, other: &Column)
        ensures { self.new.bytes ≡ add_words self.old.bytes other.now.bytes }
    {
        let old = *self;
        self.bytes = array::from_fn(|r| old.byte(r).add(other.byte(r)));
    }

    // Byte r of MixColumns of one column: row r of the matrix times the column.
    fn mixed(&self, r: usize) -> Byte
        requires { r < 4 }
        ensures { result ≡ byte_at (mix_column self.now.bytes) r }
    {
        sum_of_products(&Column::from(MATRIX[r]).bytes, &self.bytes)
    }

    // MixColumns of one column.
    pub(crate) fn mix(&mut self)
        ensures { self.new.bytes ≡ mix_column self.old.bytes }
    {
        let old = *self;
        self.bytes = array::from_fn(|r| old.mixed(r));
    }

    // The bytes as numbers.
    pub(crate) fn values(&self) -> [u8; 4]
        ensures { result ≡ values self.now.bytes }
    {
        array::from_fn(|r| self.byte(r).value)
    }
}

// The state of AES.
#[derive(Clone, Copy)]
pub struct State {
    columns: [Column; 4],
}

impl State {
    // The block's bytes, column by column.
    pub(crate) fn of(x: Block) -> State
        ensures { columns_of result ≡ input x }
    {
        let bytes = x.to_bytes();
        State {
            columns: array::from_fn(|c| Column::at(&bytes, c)),
        }
    }

    // Column c.
    fn column(&self, c: usize) -> Column
        requires { c < 4 }
        ensures { result.bytes ≡ word_of (columns_of self.now) c }
    {
        self.columns[c]
    }

    // Byte k of the block of the state.
    fn value(&self, k: usize) -> u8
        requires { k < 16 }
        ensures { result ≡ (byte_at (word_of (columns_of self.now) (k / 4)) (k % 4)).value }
    {
        self.column(k / 4).byte(k % 4).value
    }

    // The block of the state.
    pub(crate) fn block(&self) -> Block
        ensures { result ≡ output (columns_of self.now) }
    {
        Block::from_bytes(array::from_fn(|k| self.value(k)))
    }

    // SubBytes.
    fn sub(&mut self)
        ensures { columns_of self.new ≡ sub_bytes (columns_of self.old) }
    {
        for column in self.columns.iter_mut() {
            column.sub();
        }
    }

    // Column c of ShiftRows: row r comes from the column r places on.
    fn shifted(&self, c: usize) -> Column
        requires { c < 4 }
        ensures { result.bytes ≡ four (λ r. byte_at (word_of (columns_of self.now) ((c + r) % 4)) r) }
    {
        Column {
            bytes: array::from_fn(|r| self.column((c + r) % 4).byte(r)),
        }
    }

    // ShiftRows.
    fn shift(&mut self)
        ensures { columns_of self.new ≡ shift_rows (columns_of self.old) }
    {
        let old = *self;
        self.columns = array::from_fn(|c| old.shifted(c));
    }

    // MixColumns.
    fn mix(&mut self)
        ensures { columns_of self.new ≡ mix_columns (columns_of self.old) }
    {
        for column in self.columns.iter_mut() {
            column.mix();
        }
    }

    // AddRoundKey.
    pub(crate) fn add(&mut self, key: &RoundKey)
        ensures { columns_of self.new ≡ add_round_key (columns_of self.old) (row_words key.now) }
    {
        // By the index: of what is written through `zip` over `iter_mut` nothing is known afterwards.
        for (c, column) in self.columns.iter_mut().enumerate() {
            column.add(&key.word(c));
        }
    }

    // A round but the last.
    pub(crate) fn round(&mut self, key: &RoundKey)
        ensures { columns_of self.new ≡ after_round (row_words key.now) (columns_of self.old) }
    {
        self.sub();
        self.shift();
        self.mix();
        self.add(key);
    }

    // The last round of the cipher.
    pub(crate) fn last_round(&mut self, key: &RoundKey)
        ensures { columns_of self.new ≡ last_round (row_words key.now) (columns_of self.old) }
    {
        self.sub();
        self.shift();
        // No MixColumns.
        self.add(key);
    }
}
