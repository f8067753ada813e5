//! What follows from the definitions. The functions do nothing: their contracts are the laws.

ghost use Rattle.std.specs.Prelude.{◌≡◌, ℕ, Bool, true, false, List, [], ◌∷◌, ◌++◌, ◌⊎◌, Option, Some, None, option_and_then, MatchOption};
ghost use Rattle.std.specs.Bool.{Decides};
ghost use Rattle.st_types.specs.declared.st_type.StType.{StType};
ghost use Rattle.st_types.specs.declared.st_type.StType.TheVariants as type;
ghost use Rattle.st_tree.specs.declared.declaration.ClassDecl.{ClassDecl};
ghost use Rattle.st_tree.specs.declared.declaration.InterfaceDecl.{InterfaceDecl};
ghost use Rattle.st_rules.specs.declared.signature.Signature.{Signature};
ghost use Rattle.st_rules.specs.Faults.{Faults, earlier, least, BreaksFirst};
ghost use Rattle.st_rules.specs.Chains.{is_among, ◌or_else◌, IsAbove, Leads};
ghost use Rattle.st_rules.specs.Classes.{base_of, chain, own_method, lookup};
ghost use Rattle.st_rules.specs.Interfaces.{extended, extends, conforms};
ghost use Rattle.st_rules.specs.Types.{same_type};
ghost use Rattle.st_rules.specs.Signatures.{same_signature, IsTold};
ghost use Rattle.st_rules.specs.ClassRules.{lies_on_cycle};
ghost use Rattle.st_rules.specs.InterfaceRules.{lies_on_interface_cycle};

/// The least of the rules that are broken is one of them, with none before it, and there is none only where nothing is broken. The
/// least of two lists together is the earlier of their least ones.
pub fn fault_laws()
    ensures first { (fs : Faults) → MatchOption (least fs) (fs ≡ []) (λ f. BreaksFirst fs f.0 f.1) }
    ensures joined { (fs gs : Faults) → least (fs ++ gs) ≡ earlier (least fs) (least gs) }
{}

/// The chain of a class holds the class and all that stands above it, on cycles too. What a name means in a class is its own method of
/// that name, or else what the name means in its base. A class lies on a cycle where it stands above itself; the chain of any other
/// is the class and the chain of its base.
pub fn class_laws<A>()
    ensures chain_holds { (classes : List (ClassDecl A)) (c d : ℕ) → Decides (is_among d (chain classes c)) ((d ≡ c) ⊎ IsAbove (base_of classes) d c) }
    ensures chain_of_base { (classes : List (ClassDecl A)) (c b : ℕ) → base_of classes c ≡ Some b → lies_on_cycle classes c ≡ false → chain classes c ≡ c ∷ chain classes b }
    ensures cycle { (classes : List (ClassDecl A)) (c : ℕ) → Decides (lies_on_cycle classes c) (IsAbove (base_of classes) c c) }
    ensures looks_up { (classes : List (ClassDecl A)) (c : ℕ) (name : List ℕ) →
        lookup classes c name ≡ (own_method classes name c or_else option_and_then (λ b. lookup classes b name) (base_of classes c)) }
{}

/// An interface extends those that it leads to by EXTENDS, in any number of steps: itself, and what those extend that it extends. It
/// lies on a cycle where it leads to itself in one step or more.
pub fn interface_laws<A>()
    ensures leads { (interfaces : List (InterfaceDecl A)) (i j : ℕ) → Decides (extends interfaces i j) (Leads (extended interfaces) i j) }
    ensures itself { (interfaces : List (InterfaceDecl A)) (i : ℕ) → extends interfaces i i ≡ true }
    ensures through { (interfaces : List (InterfaceDecl A)) (i j k : ℕ) → extends interfaces i j ≡ true → extends interfaces j k ≡ true → extends interfaces i k ≡ true }
    ensures cycle { (interfaces : List (InterfaceDecl A)) (i : ℕ) →
        Decides (lies_on_interface_cycle interfaces i) ((k : ℕ) × (is_among k (extended interfaces i) ≡ true) × Leads (extended interfaces) k i) }
{}

/// A class conforms to itself, to what a class conforms to that it conforms to, and to what an interface extends that it conforms to.
pub fn conformance_laws<A>()
    ensures itself { (classes : List (ClassDecl A)) (interfaces : List (InterfaceDecl A)) (c : ℕ) → conforms classes interfaces c (type.Instance c) ≡ true }
    ensures through { (classes : List (ClassDecl A)) (interfaces : List (InterfaceDecl A)) (c d : ℕ) (t : StType) →
        conforms classes interfaces c (type.Instance d) ≡ true → conforms classes interfaces d t ≡ true → conforms classes interfaces c t ≡ true }
    ensures further { (classes : List (ClassDecl A)) (interfaces : List (InterfaceDecl A)) (c i j : ℕ) →
        conforms classes interfaces c (type.Interface i) ≡ true → extends interfaces i j ≡ true → conforms classes interfaces c (type.Interface j) ≡ true }
{}

/// Two types are the same exactly where they are equal, and so are two signatures of which all can be told.
pub fn signature_laws<V>()
    ensures types { (a b : StType) → Decides (same_type a b) (a ≡ b) }
    ensures signatures { (same_value : V → V → Bool) (a b : Signature V) →
        ((x y : V) → Decides (same_value x y) (x ≡ y)) → IsTold a → IsTold b → Decides (same_signature same_value a b) (a ≡ b) }
{}
