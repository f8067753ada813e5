//! Laws of scopes.

ghost use Rattle.scope_laws.specs.ScopeLaws.{ScopeLaws};

/// In each scope of a good unit that is formed, the rules and the meaning agree on what names are.
pub fn scope_laws()
    ensures { ScopeLaws }
{}
