ghost use Rattle.lines.specs.Printed.{LinesTell, ReportsTell};

// A line tells its record, and a report its lines: with the same text they are the same.
pub fn lines_tell_records()
    ensures lines { LinesTell }
    ensures reports { ReportsTell }
{}
