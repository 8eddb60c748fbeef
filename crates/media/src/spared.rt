ghost use Rattle.std.specs.Prelude.{◌≡◌, ℕ, ◌+◌, ◌<◌, ◌&&◌, nat_le, List, ◌++◌, length as type_size, drop, MatchResult};
ghost use Rattle.sector.specs.declared.refusal.Refusal.TheVariants.{BufferLength};
ghost use Rattle.stores.specs.Stores.{checked};
ghost use Rattle.media.specs.Spared.{Failures, listed as listed_in, lies as lies_by, position, sector_bytes, spare_place, spared_figures, spared_medium, spared_store};
ghost use Rattle.media.specs.Sparing.{place_within, place_read, place_written};

use crate::layout::Layout;
use crate::limits::within_limits;
use crate::lookup::{find, listed};
use crate::medium::Medium;
use sector::refusal::Refusal;

// Sectors in memory that the maker lends, with spare places for bad sectors. A bad sector for which there is no spare
// has failed.
pub type SparedMedium<'a> = Medium<'a, Spares<'a>>;

// Each sector in the place of its number, but for the bad ones: these lie in the spare places that follow, as they are
// listed. The list is searched in order: it has at most 16 entries, and there is no heap for a map.
#[derive(Drop)]
pub struct Spares<'a> {
    count: u64,
    spares: usize,
    bad: &'a [u64],
}

impl Spares<'_> {
    // The failed sectors.
    fn failed(&self) -> &[u64]
        ensures { result.now ≡ drop self.now.spares self.now.bad.now }
    {
        &self.bad[self.bad.len().min(self.spares)..]
    }
}

impl Layout for Spares<'_> {
    ghost keeps = { λ s. nat_le s.count 65536 && (nat_le s.spares 16 && listed_in s.count s.bad.now) };

    ghost sectors = { λ s. s.count };

    ghost places = { λ s. s.count + s.spares };

    ghost lies = { λ s n. lies_by (s.count + s.spares) n (spare_place s.count (position s.bad.now n)) };

    ghost bytes = { λ s all size. sector_bytes all s.count size s.spares s.bad.now };

    ghost within = { λ s n p h e. place_within s.count s.spares s.bad.now n p h e };

    ghost read = { λ s all size n p h e. place_read all s.count size s.spares s.bad.now n p h e };

    ghost written = { λ s all xs size n p k h e room sized. place_written all xs s.count size s.spares s.bad.now n p e h room sized k };

    fn count(&self) -> u64 {
        self.count
    }

    fn place(&self, n: u64) -> Option<usize> {
        match find(self.bad, n) {
            None => Some(n as usize),
            Some(i) if i < self.spares => Some(self.count as usize + i),
            Some(_) => None,
        }
    }
}

impl<'a> Medium<'a, Spares<'a>> {
    // Refuses figures that break a rule for a medium over so many bytes.
    pub fn check(
        bytes: usize,
        count: u64,
        length: usize,
        spares: usize,
        bad: &[u64],
    ) -> Result<(), Refusal>
        ensures { result ≡ checked (spared_figures bytes count length spares bad.now) }
    {
        if !within_limits(count, length)
            || spares > 16
            || bad.len() > 16
            || (count as usize + spares) * length != bytes
            || !listed(bad, count)
        {
            return Err(Refusal::Figures);
        }
        Ok(())
    }

    // A medium over the bytes. With figures that the check refuses it is empty, with the length 64. No byte changes.
    pub fn new(
        bytes: &'a mut [u8],
        count: u64,
        length: usize,
        spares: usize,
        bad: &'a [u64],
    ) -> SparedMedium<'a>
        ensures store { spared_store result.bytes.now result.layout.count result.length result.layout.spares result.layout.bad.now ≡ spared_medium bytes.old count length spares bad.now }
        ensures bytes { result.bytes.now ≡ bytes.old }
        ensures same { result.bytes.ghost_name ≡ bytes.entry.ghost_name }
    {
        if SparedMedium::check(bytes.len(), count, length, spares, bad).is_err() {
            return Medium {
                bytes,
                length: 64,
                layout: Spares {
                    count: 0,
                    spares: 0,
                    bad: &[],
                },
            };
        }
        Medium {
            bytes,
            length,
            layout: Spares { count, spares, bad },
        }
    }

    // Writes the failed sectors into the first entries of the buffer and answers how many they are. Their order is left
    // open. A buffer with fewer entries is refused and keeps what it holds.
    pub fn failures(&self, buffer: &mut [u64]) -> Result<usize, Refusal>
        ensures { (fs : List ℕ) × Failures (spared_store self.now.bytes.now self.now.layout.count self.now.length self.now.layout.spares self.now.layout.bad.now) fs
            × MatchResult result
            (λ k. (k ≡ type_size fs) × (buffer.new ≡ fs ++ drop (type_size fs) buffer.old))
            (λ e. (e ≡ BufferLength) × (type_size buffer.old < type_size fs) × (buffer.new ≡ buffer.old)) }
    {
        let failed = self.layout.failed();
        if buffer.len() < failed.len() {
            return Err(Refusal::BufferLength);
        }
        buffer[..failed.len()].copy_from_slice(failed);
        Ok(failed.len())
    }
}
