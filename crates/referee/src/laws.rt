//! Laws of the rules, each the contract of a function that does nothing.

ghost use Rattle.referee.specs.Rows.{BrokenBeforePages, BrokenByAnswerers, BrokenByCallers, NoneIsBroken};

/// Calls in which no rule is broken, and for each rule a frame that breaks it first, by rows.
pub fn rules_by_rows()
    ensures none { NoneIsBroken }
    ensures before { BrokenBeforePages }
    ensures callers { BrokenByCallers }
    ensures answerers { BrokenByAnswerers }
{}
