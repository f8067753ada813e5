//! Names that stand among those before them, or are the name of a routine.

ghost use Rattle.std.specs.Prelude.{◌≡◌, ◌∷◌, [], ◌++◌, List, ℕ, flat_map, IfOk};
ghost use Rattle.st_tree.specs.declared.name.Name.{Name as AName};
ghost use Rattle.st_rules.specs.Faults.{earlier, least};
ghost use Rattle.st_unit_rules.specs.NameRules as rules;
ghost use Rattle.check_names.specs.name_spaces.Held.{Holds};
ghost use Rattle.check_names.specs.name_spaces.NamesIn.{names_of};

use crate::name_spaces::held::HeldNames;
use plc_text::{Code, NoMemory, Text};
use st_rules::{earlier, when};
use st_tree::Name;
use std::alloc::Global;

/// The first of what was found and of one more name, which is held then.
fn name_fault(
    alloc: Global,
    held: &mut HeldNames,
    found: Option<(Code, u32)>,
    name: &Name,
) -> Result<Option<(Code, u32)>, NoMemory>
    ensures { IfOk result (λ f. (before : List (List ℕ)) (rest : List AName) → Holds held.old before → Holds held.new (before ++ name.now.text ∷ [])
        × (earlier f (least (rules.declared_twice (before ++ name.now.text ∷ []) rest)) ≡ earlier found (least (rules.declared_twice before (name.now ∷ rest))))) }
{
    let twice = held.hold(alloc, &name.text)?;
    Ok(earlier(found, when(twice, Code::E04, name.line)))
}

/// E04 at the least line at which a name stands among those before it. Those that are held stand before all.
pub fn twice_fault(
    alloc: Global,
    held: HeldNames,
    names: &[&Name],
) -> Result<Option<(Code, u32)>, NoMemory>
    ensures { IfOk result (λ f. (before : List (List ℕ)) → Holds held before → f ≡ least (rules.declared_twice before (names_of names.now))) }
{
    let mut held = held;
    let mut found = None;
    for name in names {
        found = name_fault(alloc, &mut held, found, *name)?;
    }
    Ok(found)
}

/// The first of what was found and of one more name, if that is the routine's.
fn same_name(found: Option<(Code, u32)>, routine: &Text, name: &Name) -> Option<(Code, u32)>
    ensures { (rest : List AName) → earlier result (least (flat_map (rules.local_named_as_routine routine.now) rest)) ≡ earlier found (least (flat_map (rules.local_named_as_routine routine.now) (name.now ∷ rest))) }
{
    earlier(found, when(name.text == *routine, Code::E04, name.line))
}

/// E04 at the least line at which a local has the name of its routine.
pub fn named_fault(routine: &Text, names: &[&Name]) -> Option<(Code, u32)>
    ensures { result ≡ least (flat_map (rules.local_named_as_routine routine.now) (names_of names.now)) }
{
    let mut found = None;
    for name in names {
        found = same_name(found, routine, *name);
    }
    found
}
