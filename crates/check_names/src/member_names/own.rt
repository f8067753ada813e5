//! What a class declares itself.

ghost use Rattle.std.specs.Prelude.{◌≡◌, ◌++◌, map, IfOk, OnOk};
ghost use Rattle.st_rules.specs.Classes.{methods_in};
ghost use Rattle.st_unit_rules.specs.NameRules as rules;
ghost use Rattle.check_names.specs.name_spaces.NamesIn.{names_of};
ghost use Rattle.check_names.specs.member_names.Private.Own.{kept};

use plc_text::NoMemory;
use st_rules::is_external;
use st_tree::{Member, Name};
use st_unit_rules::declaration_list::{WrittenName, written_members};
use std::alloc::Global;

/// Adds the names that are no externals.
fn add_kept<'a>(list: &mut Vec<&'a Name>, written: &[WrittenName<'a>]) -> Result<(), NoMemory>
    ensures { OnOk result (names_of list.new.items ≡ names_of list.old.items ++ kept written.now) }
{
    for one in written {
        if !is_external(one.section.sort) {
            list.push(one.name)?;
        }
    }
    Ok(())
}

/// The names of the variables that a class has: an entry of VAR_EXTERNAL is none of them.
pub fn own_variables(alloc: Global, members: &[Member<u32>]) -> Result<Vec<&Name>, NoMemory>
    ensures { IfOk result (λ list. names_of list.items ≡ map (λ w. w.name) (rules.own_variables members.now)) }
{
    let written = written_members(alloc, members)?;
    let mut list = Vec::new(alloc);
    add_kept(&mut list, &written)?;
    Ok(list)
}

/// The names of the methods of a class.
pub fn own_methods(alloc: Global, members: &[Member<u32>]) -> Result<Vec<&Name>, NoMemory>
    ensures { IfOk result (λ list. names_of list.items ≡ map (λ m. m.name) (methods_in members.now)) }
{
    let mut list = Vec::new(alloc);
    for member in members {
        if let Member::Method(method) = member {
            list.push(&method.name)?;
        }
    }
    Ok(list)
}
