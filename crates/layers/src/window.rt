ghost use Rattle.std.specs.Prelude.{◌≡◌, ◌+◌, nat_le};
ghost use Rattle.stores.specs.Layers.{over, store, window, window_store};
ghost use Rattle.stores.specs.Stores.{checked};

use sector::refusal::Refusal;
use stores::fault::Fault;
use stores::state::SectorState;
use stores::store::SectorStore;

// A run of sectors of a store.
#[derive(Clone, Copy, Debug)]
struct Run {
    base: u64,
    count: u64,
}

impl Run {
    // Whether the run lies within so many sectors.
    fn within(self, all: u64) -> bool
        ensures { result ≡ nat_le (self.base + self.count) all }
    {
        self.base
            .checked_add(self.count)
            .is_some_and(|end| end <= all)
    }
}

// A run of sectors of the store below: sector i is sector base + i there. Each call tests the figures again, since `new`
// promises that a window keeps those it is made with.
#[derive(Drop)]
pub struct Window<S: SectorStore> {
    below: S,
    run: Run,
}

impl<S: SectorStore> Window<S> {
    // Refuses a base and a count whose sum exceeds the count below.
    pub fn check(below: &S, base: u64, count: u64) -> Result<(), Refusal>
        ensures { result ≡ checked (nat_le (base + count) (store (S.SectorStore.view below.now)).count) }
    {
        let run = Run { base, count };
        if run.within(below.count()) {
            Ok(())
        } else {
            Err(Refusal::Figures)
        }
    }

    // A window on a store. With figures that the check refuses it is empty. No byte changes.
    pub fn new(below: S, base: u64, count: u64) -> Window<S>
        ensures parts { (result.below ≡ below) × (result.run.base ≡ base) × (result.run.count ≡ count) }
        ensures store { store (over (window result.run.base result.run.count) (S.SectorStore.view result.below)) ≡ window_store base count (store (S.SectorStore.view below)) }
    {
        Window {
            below,
            run: Run { base, count },
        }
    }

    // Takes the window off, and gives the store below as it is.
    pub fn into_below(self) -> S
        ensures { result ≡ self.below }
    {
        let Window { below, run: _ } = self;
        below
    }
}

impl<S: SectorStore> SectorStore for Window<S> {
    ghost view = { λ s. over (window s.run.base s.run.count) (S.SectorStore.view s.below) };

    ghost sound = { λ s. S.SectorStore.sound s.below };

    fn count(&self) -> u64 {
        if self.run.within(self.below.count()) {
            self.run.count
        } else {
            0
        }
    }

    fn length(&self) -> usize {
        self.below.length()
    }

    fn layer(&self) -> u16 {
        self.below.layer().saturating_add(1)
    }

    fn state(&self, n: u64) -> SectorState {
        if n >= self.count() {
            return SectorState::Missing;
        }
        self.below.state(self.run.base + n)
    }

    fn read(&self, n: u64, buffer: &mut [u8]) -> Result<(), Fault> {
        self.dimensions().admit(n, buffer.len())?;
        self.below.read(self.run.base + n, buffer)
    }

    fn write(&mut self, n: u64, buffer: &[u8]) -> Result<(), Fault> {
        self.dimensions().admit(n, buffer.len())?;
        self.below.write(self.run.base + n, buffer)
    }
}
