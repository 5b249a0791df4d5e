//! Laws of the definitions, each the contract of a function that does nothing.

ghost use Rattle.fbl_records.specs.EventLines.{LinesLaw};
ghost use Rattle.fbl_records.specs.Logs.{OtherInputsLaw};

/// An input has the lines that end with a newline, and what stands behind the last of these is no line: `lines`. It is read as lines only
/// where it is no JSON text and its lines are those of a log: `others`.
pub fn lines_law()
    ensures lines { LinesLaw }
    ensures others { OtherInputsLaw }
{}
