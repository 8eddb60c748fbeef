ghost use Rattle.std.specs.Prelude.{◌≡◌, ◌+◌, ◌^◌, ◌<◌, length, MatchOption};
ghost use Rattle.std.specs.Option.{option_map};
ghost use Rattle.sheets.specs.Reading.{NoneStands, FoundAt, NextIs, body_said};
ghost use Rattle.sheets.specs.Records.{said};

use ciphers::choice::AnyCipher;
use ciphers::function::BlockFunction;
use sector::refusal::Refusal;

// What a setting says: the numbers as they lie on the sheet, since one with an unknown cipher or hash does not break it.
#[derive(Clone, Copy, Debug, PartialEq, Eq)]
pub struct Values {
    pub cipher: u8,
    pub hash: u8,
    pub length: u16,
    pub count: u16,
    pub key: [u8; 16],
}

// A record of a sheet. A write's text is the part of the sheet itself, with its place there.
#[derive(Clone, Copy, Debug, PartialEq, Eq)]
pub enum Record<'a> {
    Setting(Values),
    Write {
        sector: u16,
        text: &'a [u8],
        at: usize,
    },
    Read {
        sector: u16,
    },
}

// A record and the place after it.
#[derive(Clone, Copy, Debug, PartialEq, Eq)]
pub struct Found<'a> {
    pub record: Record<'a>,
    pub next: usize,
}

// The record whose body stands at a place of the sheet.
fn record_of<'a>(body: &'a [u8], at: usize) -> Option<Record<'a>>
    requires { at + length body.now < 2 ^ 64 }
    ensures { option_map said result ≡ body_said at body.now }
{
    match body {
        [1, cipher, hash, l1, l0, c1, c0, key @ ..] if key.len() == AnyCipher::KEY_LENGTH => {
            Some(Record::Setting(Values {
                cipher: *cipher,
                hash: *hash,
                length: u16::from_be_bytes([*l1, *l0]),
                count: u16::from_be_bytes([*c1, *c0]),
                key: <[u8; 16]>::try_from(key).ok()?,
            }))
        }
        [2, s1, s0, text @ ..] => Some(Record::Write {
            sector: u16::from_be_bytes([*s1, *s0]),
            text,
            at: at + 3,
        }),
        [3, s1, s0] => Some(Record::Read {
            sector: u16::from_be_bytes([*s1, *s0]),
        }),
        _ => None,
    }
}

// The record that stands at a place of the sheet, and the place after it.
fn found_at<'a>(sheet: &'a [u8], at: usize) -> Option<Found<'a>>
    requires { at < length sheet.now }
    ensures { MatchOption result (NoneStands sheet.now at) (FoundAt sheet.now at) }
{
    let (length, rest) = sheet[at..].split_first_chunk()?;
    let body = rest.get(..usize::from(u16::from_be_bytes(*length)))?;
    Some(Found {
        record: record_of(body, at + 2)?,
        next: at + 2 + body.len(),
    })
}

// The record that stands at a place of the sheet, and the place after it; none at the end. Where no record stands, the
// sheet is broken.
pub fn next_record<'a>(sheet: &'a [u8], at: usize) -> Result<Option<Found<'a>>, Refusal>
    ensures { NextIs sheet.now at result }
{
    if sheet.len() <= at {
        return Ok(None);
    }
    found_at(sheet, at).map(Some).ok_or(Refusal::SheetBroken)
}
