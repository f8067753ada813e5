//! Widening as it is computed. The function does nothing: its contract is the law.

ghost use Rattle.std.specs.Prelude.{◌≡◌, ◌↔◌, Some};
ghost use Rattle.std.specs.Bool.{Decides};
ghost use Rattle.st_types.specs.declared.elem.Elem.{Elem};
ghost use Rattle.st_types.specs.Widening.{Reaches, IsCommon};
ghost use Rattle.st_rules.specs.Kinds.{reaches, common_kind};

/// What is computed of widening is the relation of `st_types`: a kind reaches what it widens to in any number of steps, and two
/// operands take the first kind that both reach.
pub fn widening_laws()
    ensures reaching { (a b : Elem) → Decides (reaches a b) (Reaches a b) }
    ensures common { (a b k : Elem) → (common_kind a b ≡ Some k) ↔ IsCommon a b k }
{}
