ghost use Rattle.std.specs.Prelude.{◌≡◌, ok_or};
ghost use Rattle.sector.specs.declared.refusal.Refusal.TheVariants.{Figures};
ghost use Rattle.sheet_turns.specs.Settings.{figures, admitted};

use ciphers::choice::Cipher;
use hashing::choice::AnyHash;
use sector::refusal::Refusal;
use sheets::records::Values;

// How many bytes the sectors of a setting may have in all.
const LARGEST: usize = 32768;

// What a run is set to: the cipher, the hash, the length and the count of the sectors, and the key.
#[derive(Clone, Copy, Debug, PartialEq, Eq)]
pub struct Setting {
    pub cipher: Cipher,
    pub hash: AnyHash,
    pub length: u16,
    pub count: u16,
    pub key: [u8; 16],
}

// Whether sectors of this length and count make a store that a sheet may have.
fn fits(length: u16, count: u16) -> bool
    ensures { result ≡ figures length count }
{
    (64..=4096).contains(&length)
        && length % 16 == 0
        && count >= 1
        && usize::from(length) * usize::from(count) <= LARGEST
}

// The setting that the values are, if they are admitted.
impl TryFrom<Values> for Setting {
    type Error = Refusal;

    ghost try_from_gives = { λ v r. r ≡ ok_or (admitted v.cipher v.hash v.length v.count v.key) Figures };

    fn try_from(values: Values) -> Result<Setting, Refusal> {
        if !fits(values.length, values.count) {
            return Err(Refusal::Figures);
        }
        Ok(Setting {
            cipher: Cipher::try_from(values.cipher).map_err(|_| Refusal::Figures)?,
            hash: AnyHash::try_from(values.hash).map_err(|_| Refusal::Figures)?,
            length: values.length,
            count: values.count,
            key: values.key,
        })
    }
}
