ghost use Rattle.std.specs.Prelude.{◌≡◌};
ghost use Rattle.sector.specs.Refusals.{refusal_number};
ghost use Rattle.stores.specs.Stores.{state_number};

use crate::fault::Fault;
use crate::state::SectorState;
use sector::refusal::Refusal;

impl Fault {
    // The number of the refusal.
    pub fn number(self) -> u8
        ensures { result ≡ refusal_number self.refusal }
    {
        self.refusal.number()
    }
}

impl SectorState {
    // 0, or the number of the refusal that a read or a write would draw.
    pub fn number(self) -> u8
        ensures { result ≡ state_number self }
    {
        match self {
            SectorState::Ready => 0,
            SectorState::Missing => Refusal::SectorNumber.number(),
            SectorState::Failed => Refusal::SectorFailed.number(),
        }
    }
}
