ghost use Rattle.std.specs.Prelude.{◌≡◌, ◌==◌, is_ok};
ghost use Rattle.sector.specs.Refusals.{answer_number, refusal_number};

use crate::refusal::Refusal;

impl Refusal {
    // The number by which a caller is told.
    pub fn number(self) -> u8
        ensures { result ≡ refusal_number self }
    {
        self as u8
    }
}

// 0 where nothing is refused, or the refusal's number.
pub fn answer_number(answer: Result<(), Refusal>) -> u8
    ensures number { result ≡ answer_number answer }
    ensures accepted { (result == 0) ≡ is_ok answer }
{
    match answer {
        Ok(()) => 0,
        Err(refusal) => refusal.number(),
    }
}
