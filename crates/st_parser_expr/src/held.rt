//! Values whose drop is one call.

ghost use Rattle.std.specs.Prelude.{◌≡◌};

use std::marker::Model;

/// A value that contracts see as itself. The drop of a tree is written out wherever a `?` may need it, and a proof goes over
/// each part of it there; that of a held tree is one call.
pub struct Held<T> {
    value: T,
}

impl<T> Model for Held<T> {
    ghost Value = { T };

    ghost coded = { T.code };

    ghost view = { λ h. h.value };
}

impl<T: Drop> Drop for Held<T> {
    fn drop(self) {
        let Held { value: _ } = self;
    }
}

impl<T> Held<T> {
    pub fn new(value: T) -> Held<T>
        ensures { result ≡ value }
    {
        Held { value }
    }

    pub fn into_inner(self) -> T
        ensures { result ≡ self }
    {
        let Held { value } = self;
        value
    }
}
