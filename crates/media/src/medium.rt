ghost use Rattle.std.specs.Prelude.{◌≡◌, ◌≢◌, ℕ, ◌*◌, ◌≤◌, true, length as type_size, None};
ghost use Rattle.stores.specs.Layers.{alone, after_write, store};
ghost use Rattle.media.specs.Limits.{medium_sound};
ghost use Rattle.stores.specs.Stores.{outcome, refusal};
ghost use Rattle.media.specs.Media.{place, within_limits};
ghost use Rattle.media.specs.Spared.{laid_out, own_or, placed};

use crate::layout::Layout;
use crate::places::{get_place, put_place};
use sector::refusal::Refusal;
use stores::fault::Fault;
use stores::state::SectorState;
use stores::store::SectorStore;

// Sectors in memory that the maker lends. A medium that is made with figures that break a rule is empty, with the length
// 64.
#[derive(Drop)]
pub struct Medium<'a, L: Layout> {
    pub(crate) bytes: &'a mut [u8],
    pub(crate) length: usize,
    pub(crate) layout: L,
    ghost kept: { L.keeps layout ≡ true },
    ghost limits: { within_limits (L.sectors layout) length ≡ true },
    ghost room: { L.places layout * length ≤ type_size bytes.now },
}

impl<'a, L: Layout> Medium<'a, L> {
    // The place of a sector, or the fault of one that has failed: it fails here, in the lowest store.
    fn place(&self, n: u64) -> Result<usize, Fault>
        ensures { result ≡ placed n (L.lies self.now.layout n) }
    {
        self.layout.place(n).ok_or(Fault {
            refusal: Refusal::SectorFailed,
            sector: n,
            layer: 0,
        })
    }
}

impl<'a, L: Layout + Drop> Medium<'a, L> {
    // Gives the bytes back as they are.
    pub fn into_bytes(self) -> &'a mut [u8]
        ensures bytes { result.now ≡ self.entry.bytes.now }
        ensures same { result.ghost_name ≡ self.entry.bytes.ghost_name }
    {
        let Medium {
            bytes,
            length: _,
            layout: _,
        } = self;
        bytes
    }
}

impl<'a, L: Layout> SectorStore for Medium<'a, L> {
    ghost view = { λ s. alone (laid_out (L.sectors s.layout) s.length (L.bytes s.layout s.bytes.now s.length) (L.lies s.layout)) };

    ghost sound = { λ s. medium_sound (L.sectors s.layout) s.length _ _ s.limits };

    fn count(&self) -> u64 {
        self.layout.count()
    }

    fn length(&self) -> usize {
        self.length
    }

    fn layer(&self) -> u16 {
        0
    }

    fn state(&self, n: u64) -> SectorState {
        if n >= self.layout.count() {
            return SectorState::Missing;
        }
        if self.layout.place(n).is_some() {
            SectorState::Ready
        } else {
            SectorState::Failed
        }
    }

    fn read(&self, n: u64, buffer: &mut [u8]) -> Result<(), Fault> {
        self.dimensions().admit(n, buffer.len())?;
        let place = self.place(n)?;
        get_place(&*self.bytes, place, buffer);
        Ok(())
    }

    // As every store writes. Of the memory, no byte changes where the write is refused, and no place but the sector's
    // where it is accepted: none of those in which no sector lies, either.
    fn write(&mut self, n: u64, buffer: &[u8]) -> Result<(), Fault>
        ensures answer { result ≡ outcome (refusal (store (⟦<Medium<'a, L> as SectorStore>⟧.view self.old)) n (type_size buffer.now)) }
        ensures after { ⟦<Medium<'a, L> as SectorStore>⟧.view self.new ≡ after_write (refusal (store (⟦<Medium<'a, L> as SectorStore>⟧.view self.old)) n (type_size buffer.now)) (⟦<Medium<'a, L> as SectorStore>⟧.view self.old) n buffer.now }
        ensures kept { refusal (store (⟦<Medium<'a, L> as SectorStore>⟧.view self.old)) n (type_size buffer.now) ≢ None → self.new.bytes.now ≡ self.old.bytes.now }
        ensures elsewhere { (p : ℕ) → p ≢ own_or n (L.lies self.old.layout n) → place self.new.bytes.now self.old.length p ≡ place self.old.bytes.now self.old.length p }
    {
        self.dimensions().admit(n, buffer.len())?;
        let place = self.place(n)?;
        put_place(self.bytes, place, buffer);
        Ok(())
    }
}
