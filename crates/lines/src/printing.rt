ghost use Rattle.std.specs.Prelude.{◌≡◌, Some};
ghost use Rattle.text.specs.Writing.{capital_digit, bytes_text};
ghost use Rattle.lines.specs.Printed.{kind_word, shown_or_dash, line_text, header_text, report_text};

use crate::line::{Line, LineKind};
use sector::numbers::answer_number;
use std::fmt;

impl LineKind {
    // The word that a line has for the kind.
    pub fn word(self) -> &'static str
        ensures { result.now ≡ kind_word self }
    {
        match self {
            LineKind::Setting => "setting",
            LineKind::Write => "write",
            LineKind::Read => "read",
            LineKind::Broken => "broken",
        }
    }
}

impl fmt::Display for LineKind {
    ghost output = { λ k. Some (kind_word k) };

    fn fmt<W: fmt::Write>(&self, f: &mut fmt::Formatter<W>) -> fmt::Result {
        f.write_str(self.word())
    }
}

// Bytes as capital hex digits, two to a byte.
#[derive(Clone, Copy)]
struct HexBytes<'a> {
    bytes: &'a [u8],
}

impl fmt::Display for HexBytes<'_> {
    ghost output = { λ x. Some (bytes_text capital_digit x.bytes.now) };

    fn fmt<W: fmt::Write>(&self, f: &mut fmt::Formatter<W>) -> fmt::Result {
        for &byte in self.bytes {
            write!(f, "{byte:02X}")?;
        }
        Ok(())
    }
}

// A value, or a dash for none.
#[derive(Clone, Copy)]
struct OrDash<T> {
    value: Option<T>,
}

impl<T: fmt::Display> fmt::Display for OrDash<T> {
    ghost output = { λ x. shown_or_dash T.Display.output x.value };

    fn fmt<W: fmt::Write>(&self, f: &mut fmt::Formatter<W>) -> fmt::Result {
        match &self.value {
            Some(value) => write!(f, "{value}"),
            None => write!(f, "-"),
        }
    }
}

// The line of a record, without the end of the line.
impl fmt::Display for Line {
    ghost output = { λ l. Some (line_text l) };

    fn fmt<W: fmt::Write>(&self, f: &mut fmt::Formatter<W>) -> fmt::Result {
        let index = self.index;
        let kind = self.kind;
        let sector = OrDash { value: self.sector };
        let answer = answer_number(self.answer);
        let first = OrDash {
            value: self.first.as_ref().map(|bytes| HexBytes { bytes }),
        };
        write!(f, "{index} {kind} {sector} {answer} {first}")
    }
}

// The first line, which names the columns.
pub fn header() -> &'static str
    ensures { result.now ≡ header_text }
{
    "record kind sector answer first"
}

// All that is printed for a sheet: the header and the lines, each with its end.
#[derive(Clone, Copy)]
pub struct Report<'a> {
    pub lines: &'a [Line],
}

impl fmt::Display for Report<'_> {
    ghost output = { λ x. Some (report_text x.lines.now) };

    fn fmt<W: fmt::Write>(&self, f: &mut fmt::Formatter<W>) -> fmt::Result {
        let names = header();
        writeln!(f, "{names}")?;
        for line in self.lines {
            writeln!(f, "{line}")?;
        }
        Ok(())
    }
}
