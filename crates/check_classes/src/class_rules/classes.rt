//! Classes and function blocks.

ghost use Rattle.std.specs.Prelude.{◌≡◌, ◌++◌, false, Some, [], IfOk};
ghost use Rattle.st_rules.specs.Classes.{chain, classes_in};
ghost use Rattle.st_rules.specs.Faults.{least};
ghost use Rattle.st_unit_rules.specs.DeclarationRules as rules;
ghost use Rattle.check_names.specs.member_names.Known.{Knows};
ghost use Rattle.default_values.specs.numbered_signatures.Signatures.{Tells};
ghost use Rattle.symbol_table.specs.unit_tables.Scopes.{scope_in};
ghost use Rattle.check_classes.specs.class_rules.Classes.{ChecksClass};
ghost use Rattle.check_classes.specs.class_rules.Private.Classes.{BrokenBy, TreesFound};

use crate::base_rules::{check_base, check_interfaces};
use crate::class_limit_rules::class_limit_fault;
use crate::class_rules::parts::{Broken, CheckedClass, Trees, heading_of, home};
use crate::member_rules::check_members;
use check_names::member_names::{MemberNames, member_name_fault};
use check_names::name_spaces::word_twice;
use check_routines::body_found;
use declared_graph::inner_cycles_fault;
use default_values::numbered_signatures::NumberedSignatures;
use name_resolution::Scope;
use plc_text::{Code, NoMemory};
use st_tree::ClassDecl;
use st_unit_rules::declaration_list::written_members;
use std::alloc::Global;
use symbol_table::unit_tables::UnitTables;

/// What classes are checked by, beside the tables of the unit.
#[derive(Clone, Copy)]
pub struct ClassSide<'a> {
    pub names: &'a MemberNames,
    pub signatures: &'a NumberedSignatures,
}

/// What a class of this number, with this chain, breaks besides its base, its interfaces, its members and its body.
fn broken_by(
    alloc: Global,
    tables: &UnitTables<'_>,
    side: &ClassSide<'_>,
    s: &Scope<'_>,
    place: usize,
    number: u32,
    class: &ClassDecl<u32>,
) -> Result<Broken, NoMemory>
    requires scope { s.now ≡ scope_in tables.now.decls (Some number) false [] }
    requires names { Knows side.now.names.now (classes_in tables.now.decls) }
    requires signatures { Tells side.now.signatures.now.worths side.now.signatures.now.signatures (rules.signatures tables.now.decls) }
    ensures { IfOk result (λ b. BrokenBy b tables.now.decls place number class.now) }
{
    let list = s.chain(alloc, number)?;
    let chain = list.as_slice();
    let names = member_name_fault(alloc, side.names, chain, class)?;
    let limits = class_limit_fault(alloc, s, tables, place, number, chain, class)?;
    drop(list);
    let members = class.members.as_slice();
    let written = written_members(alloc, members)?;
    let declared = written.as_slice();
    let cycles = inner_cycles_fault(alloc, declared)?;
    let (classes, interfaces) = (tables.class_tables(), tables.interface_tables());
    let modifiers = class.modifiers.as_slice();
    let words = word_twice(class.line, modifiers);
    let bases = side.signatures.class_fault(classes, number);
    let concrete = side.signatures.concrete_class_fault(interfaces, number);
    Ok(Broken {
        words,
        names,
        bases,
        concrete,
        cycles,
        limits,
    })
}

/// The trees in a class of this number, in its scope.
fn trees_of(
    alloc: Global,
    tables: &UnitTables<'_>,
    s: &Scope<'_>,
    number: u32,
    class: &ClassDecl<u32>,
) -> Result<Trees, NoMemory>
    requires { s.now ≡ scope_in tables.now.decls (Some number) false [] }
    ensures { IfOk result (λ p. TreesFound p tables.now.decls number class.now) }
{
    let classes = tables.class_tables();
    let base = check_base(alloc, classes, &class.base)?;
    let used = class.interfaces.as_slice();
    let interfaces = check_interfaces(alloc, classes, used)?;
    let home = home(class.sort);
    let list = class.members.as_slice();
    let members = check_members(alloc, tables, s, number, home, list)?;
    let text = class.body.as_slice();
    let body = body_found(alloc, s, text)?;
    Ok(Trees {
        base,
        interfaces,
        members,
        body,
    })
}

/// Checks a class or a function block of a unit, by its place among the declarations and its number among the classes: the least of all
/// rules that it breaks, but those of its own name, of cycles of containment and of the number of declarations and classes, and its typed
/// tree, where it breaks none.
pub fn check_class(
    alloc: Global,
    tables: &UnitTables<'_>,
    side: &ClassSide<'_>,
    place: usize,
    number: u32,
    class: &ClassDecl<u32>,
) -> Result<CheckedClass, NoMemory>
    requires names { Knows side.now.names.now (classes_in tables.now.decls) }
    requires signatures { Tells side.now.signatures.now.worths side.now.signatures.now.signatures (rules.signatures tables.now.decls) }
    ensures { IfOk result (λ c. ChecksClass c tables.now.decls place number class.now) }
{
    let s = tables.scope(alloc, Some(number), false, &[])?;
    let broken = broken_by(alloc, tables, side, &s, place, number, class)?;
    let heading = heading_of(alloc, class)?;
    let found = trees_of(alloc, tables, &s, number, class)?;
    Ok(heading.class_of(&broken, found))
}
