ghost use Rattle.std.specs.Prelude.{◌≡◌, length};
ghost use Rattle.stores.specs.Stores.{dimensions as dimensions_of, refusal, outcome, filled, state as state_by};
ghost use Rattle.stores.specs.Layers.{Stack, Sound, store, after_write};

use crate::dimensions::Dimensions;
use crate::fault::Fault;
use crate::state::SectorState;

// Sectors of equal length, read and written by number. What a store means is `store (view s)`: its count, its length,
// its layer number, the bytes of each sector, and which sectors have failed. Only the bytes change, and only by
// `write`.
pub trait SectorStore {
    // The layers that the store consists of, and the store below them; of a lowest store, no layers and itself. What a
    // window does to sectors outside itself is nowhere else to be seen.
    ghost view: { Self → Stack };

    ghost sound: { (s : Self) → Sound (view s).lowest };

    fn count(&self) -> u64
        ensures { result ≡ (store (view self.now)).count };

    // How many bytes each sector has.
    fn length(&self) -> usize
        ensures { result ≡ (store (view self.now)).size };

    fn layer(&self) -> u16
        ensures { result ≡ (store (view self.now)).layer };

    // The three numbers at once.
    fn dimensions(&self) -> Dimensions
        ensures { result ≡ dimensions_of (store (view self.now)) }
    {
        Dimensions {
            count: self.count(),
            length: self.length(),
            layer: self.layer(),
        }
    }

    fn state(&self, n: u64) -> SectorState
        ensures { result ≡ state_by (store (view self.now)) n };

    // Fills the buffer with the bytes of sector n. A refused read leaves the buffer as it was.
    fn read(&self, n: u64, buffer: &mut [u8]) -> Result<(), Fault>
        ensures answer { result ≡ outcome (refusal (store (view self.now)) n (length buffer.old)) }
        ensures filled { buffer.new ≡ filled (refusal (store (view self.now)) n (length buffer.old)) buffer.old ((store (view self.now)).bytes n) };

    // Puts the buffer's bytes into sector n and no other. A refused write changes nothing.
    fn write(&mut self, n: u64, buffer: &[u8]) -> Result<(), Fault>
        ensures answer { result ≡ outcome (refusal (store (view self.old)) n (length buffer.now)) }
        ensures after { view self.new ≡ after_write (refusal (store (view self.old)) n (length buffer.now)) (view self.old) n buffer.now };
}
