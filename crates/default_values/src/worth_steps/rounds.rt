//! The steps of structures, found in rounds: in each those that take one step more than the ones before.

ghost use Rattle.std.specs.Prelude.{◌≡◌, ℕ, ◌+◌, suc, ◌<◌, ◌≤◌, nat_le, List, length, IfOk, set, Some};
ghost use Rattle.st_types.specs.declared.st_type.StType.{StType as AType};
ghost use Rattle.st_tree.specs.declared.declaration.TypeDecl.{TypeDecl as AnEntry};
ghost use Rattle.st_rules.specs.Scope.{Scope as AScope};
ghost use Rattle.default_values.specs.worth_steps.Steps as words;
ghost use Rattle.default_values.specs.worth_steps.Private.Rounds as rounds;

use crate::worth_steps::counts::{TOO_MANY, count_at, parts_fit, steps_of};
use plc_text::NoMemory;
use st_rules::TypeParts;
use st_types::StType;
use std::alloc::Global;

/// In how many steps each structure has a worth, by the number of its entry of TYPE.
#[derive(Drop)]
pub struct StructureSteps {
    pub structures: Vec<u32>,
}

fn note(structures: &mut [u32], number: usize, steps: u32)
    requires { number < length structures.old }
    ensures { structures.new ≡ set structures.old number steps }
{
    structures[number] = steps;
}

/// Notes a structure whose fields take one step fewer, where it was not noted before.
fn try_one(structures: &mut [u32], steps: u32, number: usize, parts: &TypeParts)
    requires some { 0 < steps }
    requires within { number < length structures.old }
    ensures round { (unit : AScope) (entries : List (AnEntry ℕ)) → steps ≤ 66 → words.kinds_in (Some parts.now) ≡ words.field_kinds unit entries number → rounds.IsRound unit entries structures.old steps number → rounds.IsRound unit entries structures.new steps (suc number) }
    ensures long { length structures.new ≡ length structures.old }
{
    if count_at(structures, number) != TOO_MANY {
        return;
    }
    if parts_fit(structures, steps - 1, parts) {
        note(structures, number, steps);
    }
}

/// One round.
fn round(structures: &mut [u32], steps: u32, parts: &[TypeParts])
    requires some { 0 < steps }
    requires long { length structures.old ≡ length parts.now }
    ensures round { (unit : AScope) (entries : List (AnEntry ℕ)) → steps ≤ 66 → words.AreFields unit entries parts.now → rounds.IsRound unit entries structures.old steps 0 → rounds.IsRound unit entries structures.new (suc steps) 0 }
    ensures long { length structures.new ≡ length structures.old }
{
    for (number, part) in parts.iter().enumerate() {
        try_one(structures, steps, number, part);
    }
}

impl StructureSteps {
    /// The steps of the structures whose fields are these, by the number of their entry of TYPE.
    pub fn build(alloc: Global, parts: &[TypeParts]) -> Result<StructureSteps, NoMemory>
        ensures { IfOk result (λ x. (unit : AScope) (entries : List (AnEntry ℕ)) → words.AreFields unit entries parts.now → words.AreCounts unit entries x.structures.items) }
    {
        let mut structures: Vec<u32> = vec![in alloc; TOO_MANY; parts.len()]?;
        for steps in 1..TOO_MANY {
            round(&mut structures, steps, parts);
        }
        Ok(StructureSteps { structures })
    }

    /// In how many steps a type has a worth; 67 where it has none.
    pub fn steps_of(&self, kind: &StType) -> u32
        ensures { (unit : AScope) (entries : List (AnEntry ℕ)) → words.AreCounts unit entries self.now.structures.items → words.IsCount unit entries result kind.now }
    {
        steps_of(&self.structures, kind)
    }
}
