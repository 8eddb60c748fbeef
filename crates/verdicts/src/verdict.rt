ghost use Rattle.std.specs.Prelude.{◌≡◌, Some};
ghost use Rattle.answers.specs.Reading.{Known, understood, read};
ghost use Rattle.answers.specs.Rendering.{Written};
ghost use Rattle.verdicts.specs.Verdicts.{Judged, counted, verdict_text, tally_text};

use crate::agreement::agrees;
use answers::answer::NotUnderstood;
use answers::kinds::Kind;
use answers::reading::read_line;
use std::fmt;

// What there is to say of a line that is not passed over.
#[derive(Clone, Copy, Debug, PartialEq, Eq)]
pub enum Verdict {
    Agrees(Kind),
    Differs(Kind),
    NotUnderstood,
}

// Reads a line and works out its answer. A line that is passed over has no verdict.
pub fn judge(line: &[u8]) -> Option<Verdict>
    ensures value { Judged (read line.now) result }
    ensures written { (k : Known) → Written k line.now → Judged (understood k) result }
{
    match read_line(line) {
        Ok(None) => None,
        Err(NotUnderstood) => Some(Verdict::NotUnderstood),
        Ok(Some(answer)) if agrees(&answer) => Some(Verdict::Agrees(answer.kind())),
        Ok(Some(answer)) => Some(Verdict::Differs(answer.kind())),
    }
}

// How many lines agree, and how many differ or were not understood.
#[derive(Clone, Copy, Debug, Default, PartialEq, Eq)]
pub struct Tally {
    pub agree: u64,
    pub differ: u64,
}

impl Tally {
    pub fn new() -> Tally
        ensures { result ≡ record { agree = 0; differ = 0 } }
    {
        Tally {
            agree: 0,
            differ: 0,
        }
    }

    // Counts one more line. A count stops at the largest number.
    pub fn count(&mut self, verdict: Verdict)
        ensures { self.new ≡ counted verdict self.old }
    {
        match verdict {
            Verdict::Agrees(_) => self.agree = self.agree.saturating_add(1),
            Verdict::Differs(_) | Verdict::NotUnderstood => {
                self.differ = self.differ.saturating_add(1);
            }
        }
    }
}

// A verdict as it is printed after the line's number.
impl fmt::Display for Verdict {
    ghost output = { λ v. Some (verdict_text v) };

    fn fmt<W: fmt::Write>(&self, f: &mut fmt::Formatter<W>) -> fmt::Result {
        match *self {
            Verdict::Agrees(kind) => write!(f, "{kind} agrees"),
            Verdict::Differs(kind) => write!(f, "{kind} differs"),
            Verdict::NotUnderstood => write!(f, "- not understood"),
        }
    }
}

// A tally as it is printed last.
impl fmt::Display for Tally {
    ghost output = { λ t. Some (tally_text t) };

    fn fmt<W: fmt::Write>(&self, f: &mut fmt::Formatter<W>) -> fmt::Result {
        write!(f, "{} agree, {} differ", self.agree, self.differ)
    }
}
