ghost use Rattle.std.specs.Prelude.{◌≡◌};
ghost use Rattle.stores.specs.Stores.{fault as fault_by, misfit, outcome};

use crate::dimensions::Dimensions;
use crate::fault::Fault;
use sector::refusal::Refusal;

impl Dimensions {
    // Tests the length of a buffer and then the number of a sector, as every read and write does.
    pub fn admit(self, n: u64, len: usize) -> Result<(), Fault>
        ensures { result ≡ outcome (misfit self n len) }
    {
        if len != self.length {
            return Err(self.fault(Refusal::BufferLength, n));
        }
        if n >= self.count {
            return Err(self.fault(Refusal::SectorNumber, n));
        }
        Ok(())
    }

    // A fault that arises in the store itself.
    fn fault(self, refusal: Refusal, sector: u64) -> Fault
        ensures { result ≡ fault_by refusal sector self.layer }
    {
        Fault {
            refusal,
            sector,
            layer: self.layer,
        }
    }
}
