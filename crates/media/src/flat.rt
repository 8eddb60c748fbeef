ghost use Rattle.std.specs.Prelude.{◌≡◌, true, Some};
ghost use Rattle.media.specs.Places.{own_within, own_read, own_written};
ghost use Rattle.media.specs.Media.{flat_figures, flat_medium, flat_store, place};
ghost use Rattle.stores.specs.Stores.{checked};

use crate::layout::Layout;
use crate::limits::within_limits;
use crate::medium::Medium;
use sector::refusal::Refusal;

// Sectors one after the other in memory that the maker lends.
pub type FlatMedium<'a> = Medium<'a, InOrder>;

// Each sector in the place of its number.
#[derive(Drop)]
pub struct InOrder {
    count: u64,
}

impl Layout for InOrder {
    ghost keeps = { λ s. true };

    ghost sectors = { λ s. s.count };

    ghost places = { λ s. s.count };

    ghost lies = { λ s n. Some n };

    ghost bytes = { λ s. place };

    ghost within = { λ s n p h e. own_within s.count n p h e };

    ghost read = { λ s all size n p h e. own_read all size n p e };

    ghost written = { λ s all xs size n p k h e room sized. own_written all xs s.count size n p k h e room sized };

    fn count(&self) -> u64 {
        self.count
    }

    fn place(&self, n: u64) -> Option<usize> {
        Some(n as usize)
    }
}

impl<'a> Medium<'a, InOrder> {
    // Refuses figures that break a rule for a medium over so many bytes.
    pub fn check(bytes: usize, count: u64, length: usize) -> Result<(), Refusal>
        ensures { result ≡ checked (flat_figures bytes count length) }
    {
        if !within_limits(count, length) || count as usize * length != bytes {
            return Err(Refusal::Figures);
        }
        Ok(())
    }

    // A medium over the bytes. With figures that the check refuses it is empty, with the length 64. No byte changes.
    pub fn new(bytes: &'a mut [u8], count: u64, length: usize) -> FlatMedium<'a>
        ensures store { flat_store result.bytes.now result.layout.count result.length ≡ flat_medium bytes.old count length }
        ensures bytes { result.bytes.now ≡ bytes.old }
        ensures same { result.bytes.ghost_name ≡ bytes.entry.ghost_name }
    {
        if FlatMedium::check(bytes.len(), count, length).is_err() {
            return Medium {
                bytes,
                length: 64,
                layout: InOrder { count: 0 },
            };
        }
        Medium {
            bytes,
            length,
            layout: InOrder { count },
        }
    }
}
