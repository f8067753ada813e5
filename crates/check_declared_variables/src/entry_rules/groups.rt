//! Fields of a structure.

ghost use Rattle.std.specs.Prelude.{◌≡◌, IfOk};
ghost use Rattle.st_unit_rules.specs.declared_names.Declarations as declarations;
ghost use Rattle.check_declared_variables.specs.entry_rules.Private.Groups.{IsGroup, GroupChecks, NoGroups, AddsGroup, GroupsFind};

use crate::type_rules::{CheckedType, check_type};
use crate::variable_rules::{CheckedGiven, check_given, copied_names};
use name_resolution::Scope;
use plc_text::{Code, Items, NoMemory};
use section_rules::instance_out_of_place;
use st_rules::earlier;
use st_tree::{FieldGroup, Name, Note};
use std::alloc::Global;

/// What is found out about fields that share what is written behind their names.
#[derive(Drop)]
pub struct CheckedGroup {
    pub least: Option<(Code, u32)>,
    pub group: FieldGroup<Note>,
}

/// What is found out about the fields of a structure.
pub struct CheckedGroups {
    pub least: Option<(Code, u32)>,
    pub groups: Items<FieldGroup<Note>>,
}

// By hand, so that a drop is one call: a derived one is written out wherever a `?` may need it.
impl Drop for CheckedGroups {
    fn drop(self) {
        drop(self.into_groups());
    }
}

impl CheckedGroups {
    /// The typed trees alone.
    pub fn into_groups(self) -> Items<FieldGroup<Note>>
        ensures { result ≡ self.groups }
    {
        let CheckedGroups { least: _, groups } = self;
        groups
    }
}

/// The line of the first of the names.
fn first_line(names: &[Name]) -> u32
    ensures { result ≡ declarations.item_line_of names.now }
{
    match names {
        [first, ..] => first.line,
        [] => 0,
    }
}

/// Fields of these names, which stand at this line, of this type and with this initial value.
fn group_of(line: u32, names: Items<Name>, kind: CheckedType, given: CheckedGiven) -> CheckedGroup
    ensures { IsGroup result line names kind given }
{
    let CheckedGiven {
        least: of_initial,
        initial,
    } = given;
    let place = instance_out_of_place(line, false, &kind.kind);
    CheckedGroup {
        least: earlier(earlier(kind.least, place), of_initial),
        group: FieldGroup {
            names,
            kind: kind.into_tree(),
            initial,
        },
    }
}

fn check_group(
    alloc: Global,
    s: &Scope<'_>,
    group: &FieldGroup<u32>,
) -> Result<CheckedGroup, NoMemory>
    ensures { IfOk result (λ c. GroupChecks c s.now group.now) }
{
    let names = copied_names(alloc, group.names.as_slice())?;
    let kind = check_type(alloc, s, &group.kind)?;
    let given = check_given(alloc, s, &kind.kind, &group.initial)?;
    let line = first_line(group.names.as_slice());
    Ok(group_of(line, names, kind, given))
}

fn no_groups(alloc: Global) -> CheckedGroups
    ensures { NoGroups result }
{
    CheckedGroups {
        least: None,
        groups: Items::new(alloc),
    }
}

fn with_group(so_far: CheckedGroups, one: CheckedGroup) -> Result<CheckedGroups, NoMemory>
    ensures { IfOk result (λ x. AddsGroup x so_far one) }
{
    let mut so_far = so_far;
    let CheckedGroup { least, group } = one;
    so_far.least = earlier(so_far.least, least);
    so_far.groups.push(group)?;
    Ok(so_far)
}

/// Checks the fields of a structure.
pub fn check_groups(
    alloc: Global,
    s: &Scope<'_>,
    groups: &[FieldGroup<u32>],
) -> Result<CheckedGroups, NoMemory>
    ensures { IfOk result (λ x. GroupsFind x s.now groups.now) }
{
    let mut so_far = no_groups(alloc);
    for group in groups {
        let one = check_group(alloc, s, group)?;
        so_far = with_group(so_far, one)?;
    }
    Ok(so_far)
}
