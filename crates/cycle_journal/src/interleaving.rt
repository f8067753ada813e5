//! Laws of the orders in which entries may stand.

ghost use Rattle.std.specs.Prelude.{◌≡◌, ℕ, ◌+◌, ◌<◌, ◌≤◌, List, [], ◌∷◌, length};
ghost use Rattle.std.specs.List.{filter};
ghost use Rattle.cycle_journal.specs.declared.entry.Entry.{Entry};
ghost use Rattle.cycle_journal.specs.declared.play.Play.{Play};
ghost use Rattle.cycle_journal.specs.Interleaving.{Phase, Interleaves, InOrder, Follow, has_play, times, numbers_of};

/// A play has as many entries as there are phases with it: exactly one, where the phases follow one another. Entries in
/// order interleave one phase of all plays.
pub fn interleaving_laws()
    ensures phases { (plays : List Play) (phases : List Phase) (entries : List Entry) (n : ℕ) → Interleaves plays phases entries
        → times n (numbers_of entries) ≡ length (filter (has_play n) phases) }
    ensures once { (plays : List Play) (phases : List Phase) (entries : List Entry) (first behind n : ℕ) → Interleaves plays phases entries
        → Follow first phases behind → first ≤ n → n < behind → times n (numbers_of entries) ≡ 1 }
    ensures in_order { (plays : List Play) (entries : List Entry) → InOrder plays entries
        → Interleaves plays ((1, length plays + 1) ∷ []) entries }
{}
