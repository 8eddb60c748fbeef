ghost use Rattle.std.specs.Prelude.{◌≡◌, true, length};
ghost use Rattle.sector.specs.Refusals.{admitted};
ghost use Rattle.sector.specs.Texts.{transformed_bytes};
ghost use Rattle.sector.specs.Transform.{tweak};
ghost use Rattle.stores.specs.Layers.{cipher_store, enciphering, over, store};

use ciphers::function::BlockFunction;
use hashing::BlockHash;
use sector::cipher::SectorCipher;
use sector::text::Direction;
use stores::fault::Fault;
use stores::state::SectorState;
use stores::store::SectorStore;

// An enciphering layer: its sector n is sector n below, deciphered with n as the sector number.
#[derive(Drop)]
pub struct CipherLayer<S: SectorStore, F: BlockFunction, H: BlockHash> {
    below: S,
    cipher: SectorCipher<F, H>,
}

impl<S: SectorStore, F: BlockFunction, H: BlockHash> CipherLayer<S, F, H> {
    // A layer on a store. No byte changes.
    pub fn new(below: S, function: F, hash: H) -> CipherLayer<S, F, H>
        ensures parts { (result.below ≡ below) × (result.cipher.function ≡ function) × (result.cipher.hash ≡ hash) }
        ensures store { store (over (enciphering (F.BlockFunction.function result.cipher.function) (H.BlockHash.hash result.cipher.hash)) (S.SectorStore.view result.below)) ≡ cipher_store (F.BlockFunction.function function) (H.BlockHash.hash hash) (store (S.SectorStore.view below)) }
    {
        CipherLayer {
            below,
            cipher: SectorCipher { function, hash },
        }
    }

    // Enciphers or deciphers the text of a sector.
    fn transform(&self, direction: Direction, n: u64, text: &[u8], output: &mut [u8])
        requires same { length output.old ≡ length text.now }
        requires taken { admitted (length text.now) ≡ true }
        ensures { output.new ≡ transformed_bytes direction (F.BlockFunction.function self.now.cipher.function) (H.BlockHash.hash self.now.cipher.hash) (tweak n) text.now }
    {
        let mut working = [0; 4096];
        self.cipher
            .transform(direction, n, text, output, &mut working)
            .unwrap();
    }
}

impl<S: SectorStore, F: BlockFunction + Drop, H: BlockHash + Drop> CipherLayer<S, F, H> {
    // Takes the layer off, and gives the store below as it is.
    pub fn into_below(self) -> S
        ensures { result ≡ self.below }
    {
        let CipherLayer { below, cipher: _ } = self;
        below
    }
}

impl<S: SectorStore, F: BlockFunction, H: BlockHash> SectorStore for CipherLayer<S, F, H> {
    ghost view = { λ s. over (enciphering (F.BlockFunction.function s.cipher.function) (H.BlockHash.hash s.cipher.hash)) (S.SectorStore.view s.below) };

    ghost sound = { λ s. S.SectorStore.sound s.below };

    fn count(&self) -> u64 {
        self.below.count()
    }

    fn length(&self) -> usize {
        self.below.length()
    }

    fn layer(&self) -> u16 {
        self.below.layer().saturating_add(1)
    }

    fn state(&self, n: u64) -> SectorState {
        self.below.state(n)
    }

    fn read(&self, n: u64, buffer: &mut [u8]) -> Result<(), Fault> {
        self.dimensions().admit(n, buffer.len())?;
        let mut scratch = [0; 4096];
        let part = &mut scratch[..buffer.len()];
        // A match and no `?`: an edit can then turn the fault alone.
        match self.below.read(n, part) {
            Ok(()) => {
                self.transform(Direction::Decipher, n, part, buffer);
                Ok(())
            }
            Err(fault) => Err(fault),
        }
    }

    fn write(&mut self, n: u64, buffer: &[u8]) -> Result<(), Fault> {
        self.dimensions().admit(n, buffer.len())?;
        let mut scratch = [0; 4096];
        let part = &mut scratch[..buffer.len()];
        self.transform(Direction::Encipher, n, buffer, part);
        self.below.write(n, part)
    }
}
