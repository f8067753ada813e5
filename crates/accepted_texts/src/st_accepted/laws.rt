//! Laws of acceptance and refusal.

ghost use Rattle.accepted_texts.specs.st_accepted.AcceptedLaws.{AcceptedLaws};

/// Before declarations that are read each source is accepted or refused. It is accepted as at most one program; one that is accepted is
/// not refused; one that is refused has one code, one declaration and one line, and its code is that of no hook.
pub fn accepted_laws()
    ensures { AcceptedLaws }
{}
