//! What follows from the definition of slots. The function does nothing: its contract is the law.

ghost use Rattle.std.specs.Prelude.{◌≡◌, ℕ, List, Some};
ghost use Rattle.st_tree.specs.declared.declaration.ClassDecl.{ClassDecl};
ghost use Rattle.st_rules.specs.Classes.{base_of};
ghost use Rattle.class_tables.specs.Slots.{slot};

/// A method has the slot that it has in the base, and methods of two names have two slots in a class.
pub fn slot_laws<A>()
    ensures derived { (classes : List (ClassDecl A)) (c b s : ℕ) (name : List ℕ) → base_of classes c ≡ Some b → slot classes b name ≡ Some s → slot classes c name ≡ Some s }
    ensures distinct { (classes : List (ClassDecl A)) (c s : ℕ) (name other : List ℕ) → slot classes c name ≡ Some s → slot classes c other ≡ Some s → name ≡ other }
{}
