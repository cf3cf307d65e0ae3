//! What the definitions of one thread come to.

ghost use Rattle.one_thread.specs.One.{ScansAreOne};

/// SELECT, UPDATE and DELETE are one case: a row that is selected becomes what its statement makes of it.
pub fn scans_are_one()
    ensures { ScansAreOne }
{}
