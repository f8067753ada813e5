//! Laws of the promise.

ghost use Rattle.promise_laws.specs.PromiseLaws.{PromiseLaws};

/// The checked program of a good unit that is formed keeps what is promised to its meaning, and so does each program as which a source is
/// accepted: its declarations, calls and bodies are right, its hooks take the flags that they are given, what it lays out is small and few,
/// its outputs end within the image and share no bit, its regions begin with values of their types, and its routines have their outputs in
/// locals or, where they are bodies, in variables of their class.
pub fn promise_laws()
    ensures { PromiseLaws }
{}
