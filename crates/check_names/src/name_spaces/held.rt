//! The names of a space so far.

ghost use Rattle.std.specs.Prelude.{◌≡◌, ◌∷◌, [], ◌++◌, List, ℕ, IfOk};
ghost use Rattle.st_unit_rules.specs.NameRules.{is_named};
ghost use Rattle.check_names.specs.name_spaces.Held.{Holds};

use plc_text::{NoMemory, Text};
use std::alloc::Global;
use std::collections::HashSet;
use std::marker::Model;

/// The names of a space so far, found by hash. Contracts see a list of them, each once, in no order that counts.
#[derive(Drop)]
pub struct HeldNames {
    names: HashSet<Text>,
}

impl Model for HeldNames {
    ghost use Rattle.std.specs.Prelude.{ℕ, List};

    ghost Value = { List (List ℕ) };

    ghost view = { λ t. t.names.keys };
}

impl HeldNames {
    /// No names, which takes no memory.
    pub fn new(alloc: Global) -> HeldNames
        ensures { Holds result [] }
    {
        HeldNames {
            names: HashSet::new(alloc),
        }
    }

    /// Whether the name is one of them.
    pub fn has(&self, name: &Text) -> bool
        ensures { (names : List (List ℕ)) → Holds self.now names → result ≡ is_named name.now names }
    {
        self.names.contains(name)
    }

    /// Adds a name; whether it was there.
    pub fn hold(&mut self, alloc: Global, name: &Text) -> Result<bool, NoMemory>
        ensures twice { IfOk result (λ twice. (names : List (List ℕ)) → Holds self.old names → twice ≡ is_named name.now names) }
        ensures held { IfOk result (λ twice. (names : List (List ℕ)) → Holds self.old names → Holds self.new (names ++ name.now ∷ [])) }
    {
        let copy = Text::copy(alloc, name.as_str())?;
        let added = self.names.insert(copy)?;
        Ok(!added)
    }
}
