ghost use Rattle.stores.specs.Layers.{alone};
ghost use Rattle.store_tests.specs.Empty.{empty_store, empty_sound};

use stores::fault::Fault;
use stores::state::SectorState;
use stores::store::SectorStore;

// A store with no sectors, of the length 64, with a layer number of one's choice.
#[derive(Drop)]
pub struct Empty {
    pub layer: u16,
}

impl SectorStore for Empty {
    ghost view = { λ s. alone (empty_store s.layer) };

    ghost sound = { λ s. empty_sound s.layer };

    fn count(&self) -> u64 {
        0
    }

    fn length(&self) -> usize {
        64
    }

    fn layer(&self) -> u16 {
        self.layer
    }

    fn state(&self, _n: u64) -> SectorState {
        SectorState::Missing
    }

    fn read(&self, n: u64, buffer: &mut [u8]) -> Result<(), Fault> {
        self.dimensions().admit(n, buffer.len())
    }

    fn write(&mut self, n: u64, buffer: &[u8]) -> Result<(), Fault> {
        self.dimensions().admit(n, buffer.len())
    }
}
