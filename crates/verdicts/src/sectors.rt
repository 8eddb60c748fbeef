ghost use Rattle.std.specs.Prelude.{◌≡◌, ◌*◌, ◌≤◌, true, length, take, Decides};
ghost use Rattle.sector.specs.Refusals.{admitted};
ghost use Rattle.sector.specs.Texts.{joined};
ghost use Rattle.verdicts.specs.Settings.{transformed, BothWays, InSetting};
ghost use Rattle.text.specs.Views.{blocks_in};

use answers::reading::are_sectors;
use ciphers::choice::AnyCipher;
use elements::values::Block;
use hashing::choice::AnyHash;
use polynomials::lists::Elements;
use sector::cipher::SectorCipher;
use sector::text::Direction;
use text::hex::HexBlocks;

// Writes a list as the bytes of its blocks.
fn write_bytes<L: Elements<Block>>(list: &L, output: &mut [u8])
    requires { length output.old ≡ 16 * length (L.items list.now) }
    ensures { output.new ≡ joined (L.items list.now) }
{
    // by index, since a proof would know nothing of what is written through chunks of the output
    for i in 0..list.len() {
        let x = list.get(i).unwrap();
        output[16 * i..16 * i + 16].copy_from_slice(&x.to_bytes());
    }
}

// A list as the bytes of its blocks, with what is left of the room behind them.
fn bytes_of(list: &HexBlocks) -> [u8; 4096]
    requires { length (blocks_in list.now) ≤ 256 }
    ensures { take (16 * length (blocks_in list.now)) result ≡ joined (blocks_in list.now) }
{
    let mut bytes = [0; 4096];
    write_bytes(list, &mut bytes[..16 * list.len()]);
    bytes
}

// What the transform of a sector takes beside the text.
#[derive(Clone, Copy)]
pub(crate) struct Setting {
    pub(crate) cipher: SectorCipher<AnyCipher, AnyHash>,
    pub(crate) number: u64,
}

impl Setting {
    // Whether the transform in a direction takes the one text to the other.
    fn takes(&self, direction: Direction, from: &[u8], to: &[u8]) -> bool
        requires { admitted (length from.now) ≡ true }
        ensures { Decides result (transformed self.now direction from.now ≡ to.now) }
    {
        let mut room = [0; 4096];
        let mut working = [0; 4096];
        let output = &mut room[..from.len()];
        let answer = self
            .cipher
            .transform(direction, self.number, from, output, &mut working);
        answer.is_ok() && &*output == to
    }

    // Whether each direction takes the one text to the other.
    fn both_ways(&self, plain: &[u8], enciphered: &[u8]) -> bool
        requires text { admitted (length plain.now) ≡ true }
        requires other { length enciphered.now ≡ length plain.now }
        ensures { Decides result (BothWays self.now plain.now enciphered.now) }
    {
        self.takes(Direction::Encipher, plain, enciphered)
            && self.takes(Direction::Decipher, enciphered, plain)
    }

    // Whether two texts, which lie as digits, are one sector's in this setting.
    pub(crate) fn agrees(&self, plain: &HexBlocks, enciphered: &HexBlocks) -> bool
        ensures { Decides result (InSetting self.now (blocks_in plain.now) (blocks_in enciphered.now)) }
    {
        if !are_sectors(plain, enciphered) {
            return false;
        }
        let n = 16 * plain.len();
        self.both_ways(&bytes_of(plain)[..n], &bytes_of(enciphered)[..n])
    }
}
