//! Classes with too many bases.

ghost use Rattle.std.specs.Prelude.{◌≡◌, ℕ};
ghost use Rattle.st_rules.specs.ClassRules as rules;
ghost use Rattle.st_rules.specs.Classes.{classes_in, chain};
ghost use Rattle.st_rules.specs.Faults.{least};
ghost use Rattle.st_unit_rules.specs.Limits as limits;

use class_tables::ClassTables;
use plc_text::Code;
use st_rules::when;
use st_types::StType;

/// Whether a class stands above itself.
#[tactic(auto, unfolding(st_rules::specs::Interfaces::conforms))]
fn lies_on_cycle(classes: &ClassTables, class: u32) -> bool
    ensures { result ≡ rules.lies_on_cycle (classes_in classes.now.decls) class }
{
    match classes.base_of(class) {
        Some(base) => classes.conforms(base, &StType::Instance(class)),
        None => false,
    }
}

/// E16 at the line, where more than 64 classes stand above the class whose chain this is, before a cycle. What stands above a class on a
/// cycle lies on it too.
pub fn too_many_bases(classes: &ClassTables, line: u32, above: &[u32]) -> Option<(Code, u32)>
    ensures { (c : ℕ) → above.now ≡ chain (classes_in classes.now.decls) c → result ≡ least (limits.too_many_bases line (classes_in classes.now.decls) c) }
{
    match above.get(65) {
        Some(class) => when(!lies_on_cycle(classes, *class), Code::E16, line),
        None => None,
    }
}
