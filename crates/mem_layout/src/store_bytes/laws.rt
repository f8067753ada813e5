//! What follows from the definitions of places and of the bytes that spell values.

ghost use Rattle.std.specs.Prelude.{ℕ, Bool, List, Option};
ghost use Rattle.st_values.specs.Program.{Program};
ghost use Rattle.st_values.specs.Shape.{Shape};
ghost use Rattle.st_values.specs.Value.{Store};
ghost use Rattle.mem_layout.specs.store_bytes.PlaceLaws.{PlaceLaws, KeptOnce};
ghost use Rattle.mem_layout.specs.store_bytes.StoreLaws.{StoreLaws, SpellingLaws};
ghost use Rattle.mem_layout.specs.store_bytes.SuitsLaws.{SuitsLaws};
ghost use Rattle.mem_layout.specs.store_bytes.InitialLaws.{InitialLaws};

/// Parts lie within the whole, share no byte where they are not within each other, and one way leads to what begins at a
/// place.
pub fn place_laws()
    ensures places { PlaceLaws }
    ensures kept_once { KeptOnce }
{}

/// Bytes spell at most one value, and a value that suits its shape has one spelling.
pub fn spelling_laws()
    ensures spelling { (regions : ℕ → Option Shape) → SpellingLaws regions }
    ensures suits { (regions : ℕ → Option Shape) → SuitsLaws regions }
{}

/// Reads, writes and copies of bytes at the places of paths are reads, writes and assignments in the store.
pub fn store_laws()
    ensures { (regions : ℕ → Option Shape) (is_held : ℕ → Bool) (images : List (Option (List ℕ))) (store : Store) → StoreLaws regions is_held images store }
{}

/// The bytes of initial values spell them, so the images of the beginning show the store of the beginning.
pub fn initial_laws()
    ensures { (p : Program) → InitialLaws p }
{}
