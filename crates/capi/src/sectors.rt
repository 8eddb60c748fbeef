ghost use Rattle.std.specs.Prelude.{◌≡◌, length, replicate, is_ok, if◌then◌else◌};
ghost use Rattle.ciphers.specs.Choice.{cipher_numbered, cipher_of};
ghost use Rattle.hashing.specs.Choice.{hash_numbered, hash_of};
ghost use Rattle.sector.specs.Refusals.{answer as transform_answer};
ghost use Rattle.sector.specs.Texts.{transformed_bytes};
ghost use Rattle.sector.specs.Transform.{tweak};
ghost use Rattle.capi.specs.Methods.{method_of};
ghost use Rattle.capi.specs.Sectors.{cipher_of as cipher_by_number, hash_of as hash_by_number, sector_answer, sector_result, transformed_or};

use crate::blocks::sixteen;
use crate::method::Method;
use ciphers::aes::Aes128;
use ciphers::choice::Cipher;
use ciphers::speck::Speck128;
use hashing::choice::AnyHash;
use sector::cipher::SectorCipher;
use sector::cover::cover_stack;
use sector::numbers::answer_number;
use sector::refusal::Refusal;
use sector::text::Direction;

impl Method {
    // The method of these numbers and this key.
    fn numbered(cipher: u8, hash: u8, key: &[u8]) -> Result<Method, Refusal>
        ensures { result ≡ method_of (cipher_numbered cipher) (hash_numbered hash) key.now }
    {
        Ok(Method {
            cipher: Cipher::try_from(cipher).map_err(|_| Refusal::Figures)?,
            hash: AnyHash::try_from(hash).map_err(|_| Refusal::Figures)?,
            key: sixteen(key, Refusal::Figures)?,
        })
    }

    // The transform by this method.
    fn transform(
        self,
        direction: Direction,
        sector: u64,
        text: &[u8],
        output: &mut [u8],
        working: &mut [u8],
    ) -> Result<(), Refusal>
        ensures answer { result ≡ transform_answer (length text.now) (length output.old) (length working.old) }
        ensures output { output.new ≡ (if is_ok result then transformed_bytes direction (cipher_of self.cipher self.key) (hash_of self.hash) (tweak sector) text.now else output.old) }
        ensures working { working.new ≡ replicate (length working.old) 0 }
    {
        // For each cipher a type of its own, so that none is chosen again for each block.
        let hash = self.hash;
        match self.cipher {
            Cipher::Aes => {
                let function = Aes128::new(self.key);
                SectorCipher { function, hash }.transform(direction, sector, text, output, working)
            }
            Cipher::Speck => {
                let function = Speck128::new(self.key);
                SectorCipher { function, hash }.transform(direction, sector, text, output, working)
            }
        }
    }
}

// The transform by numbers and a key.
fn transform_numbered(
    direction: Direction,
    cipher: u8,
    hash: u8,
    key: &[u8],
    sector: u64,
    text: &[u8],
    output: &mut [u8],
    working: &mut [u8],
) -> Result<(), Refusal>
    ensures answer { result ≡ sector_result cipher hash key.now text.now output.old working.old }
    ensures output { output.new ≡ (if is_ok result then transformed_bytes direction (cipher_by_number cipher key.now) (hash_by_number hash) (tweak sector) text.now else output.old) }
    ensures working { working.new ≡ replicate (length working.old) 0 }
{
    match Method::numbered(cipher, hash, key) {
        Ok(method) => method.transform(direction, sector, text, output, working),
        Err(refusal) => {
            working.fill(0);
            Err(refusal)
        }
    }
}

// The same, answered by number. It leaves the stack uncovered.
#[inline(never)]
fn uncovered(
    direction: Direction,
    cipher: u8,
    hash: u8,
    key: &[u8],
    sector: u64,
    text: &[u8],
    output: &mut [u8],
    working: &mut [u8],
) -> u8
    ensures answer { result ≡ sector_answer cipher hash key.now text.now output.old working.old }
    ensures output { output.new ≡ transformed_or result direction (cipher_by_number cipher key.now) (hash_by_number hash) sector text.now output.old }
    ensures working { working.new ≡ replicate (length working.old) 0 }
{
    answer_number(transform_numbered(direction, cipher, hash, key, sector, text, output, working))
}

// Enciphers or deciphers the text of a sector: cipher 1 is AES-128 and 2 Speck128/128, hash 1 is the Horner hash and 2 the BRW
// hash. Answers 0; 6 for another cipher or hash, or a key that is not 16 bytes long; else the number of the transform's
// refusal. Refused, the output is as it was. The working bytes are zero afterwards, refused or not.
pub fn transform_by(
    direction: Direction,
    cipher: u8,
    hash: u8,
    key: &[u8],
    sector: u64,
    text: &[u8],
    output: &mut [u8],
    working: &mut [u8],
) -> u8
    ensures answer { result ≡ sector_answer cipher hash key.now text.now output.old working.old }
    ensures output { output.new ≡ transformed_or result direction (cipher_by_number cipher key.now) (hash_by_number hash) sector text.now output.old }
    ensures working { working.new ≡ replicate (length working.old) 0 }
{
    let answer = uncovered(direction, cipher, hash, key, sector, text, output, working);
    answer + cover_stack(answer)
}
