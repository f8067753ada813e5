//! The region of a global in a checked program.

ghost use Rattle.std.specs.Prelude.{◌≡◌, ℕ, List, IfOk};
ghost use Rattle.st_tree.specs.declared.unit.Decl.{Decl};
ghost use Rattle.st_rules.specs.Expressions as expressions;
ghost use Rattle.st_unit_rules.specs.Checked as checked;
ghost use Rattle.st_unit_rules.specs.declaration_list.Written.{written_of};
ghost use Rattle.global_rules.specs.Private.Regions.{IsRegion};

use check_declared_variables::{CheckedGiven, check_given};
use name_resolution::Scope;
use plc_text::{NoMemory, Text};
use st_rules::{copied, copied_text, told};
use st_tree::{Marks, Name, RegionDecl};
use st_types::StType;
use st_unit_rules::declaration_list::WrittenName;
use std::alloc::Global;

/// The type as it is noted.
fn noted(alloc: Global, kind: &Option<StType>) -> Result<StType, NoMemory>
    ensures { IfOk result (λ t. t ≡ expressions.told kind.now) }
{
    let copy = copied(alloc, kind)?;
    Ok(told(copy))
}

/// Whether it is the first of these names.
fn is_first_name(names: &[Name], name: &Text) -> bool
    ensures { (decls : List (Decl ℕ)) → result ≡ checked.is_first_name decls names.now name.now }
{
    match names {
        [first, ..] => first.text == *name,
        [] => true,
    }
}

/// The marks of an item, of which the old name counts for the first name alone.
fn marks_of(alloc: Global, name: &WrittenName<'_>) -> Result<Marks, NoMemory>
    ensures { IfOk result (λ m. (decls : List (Decl ℕ)) → m ≡ checked.marks_of decls (written_of name.now)) }
{
    let marks = name.item.marks.copy(alloc)?;
    if is_first_name(name.item.names.as_slice(), &name.name.text) {
        Ok(marks)
    } else {
        Ok(Marks {
            renamed_from: None,
            ..marks
        })
    }
}

/// The region of a global of this type, in the scope of the unit.
pub fn region_of(
    alloc: Global,
    s: &Scope<'_>,
    kind: &Option<StType>,
    name: &WrittenName<'_>,
) -> Result<RegionDecl, NoMemory>
    ensures { IfOk result (λ r. IsRegion r s.now kind.now (written_of name.now)) }
{
    let text = Text::copy(alloc, name.name.text.as_str())?;
    let marks = marks_of(alloc, name)?;
    let address = copied_text(alloc, &name.item.address)?;
    let told = noted(alloc, kind)?;
    let given = check_given(alloc, s, kind, &name.item.initial)?;
    let CheckedGiven { least: _, initial } = given;
    Ok(RegionDecl {
        name: text,
        program: false,
        kind: told,
        marks,
        initial,
        address,
    })
}
