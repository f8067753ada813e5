//! The tables of a unit of which all is told that can be, and the scopes in it.

ghost use Rattle.std.specs.Prelude.{◌≡◌, false, IfOk};
ghost use Rattle.type_resolution.specs.told_locals.Around.{IsAround, scope_around};
ghost use Rattle.symbol_table.specs.unit_names.Private.Known.{IsKnown, scope_in};

use class_tables::ClassTables;
use iface_tables::IfaceTables;
use name_resolution::{NameTables, Scope};
use plc_text::NoMemory;
use std::alloc::Global;
use type_resolution::told_locals::Around;

/// The tables of a unit.
#[derive(Clone, Copy)]
pub struct Known<'a> {
    pub names: &'a NameTables,
    pub classes: &'a ClassTables,
    pub interfaces: &'a IfaceTables,
}

/// What stands around a routine of a class or of none.
pub fn around<'a>(known: &Known<'a>, class: Option<u32>, in_method: bool) -> Around<'a>
    ensures scope { scope_around result ≡ scope_in known.now class in_method }
    ensures known { IsKnown known.now → IsAround result }
{
    Around {
        names: known.names,
        classes: known.classes,
        interfaces: known.interfaces,
        class,
        in_method,
    }
}

/// The scope of a class and its body, or of a declaration that is no class.
pub fn scope_of<'a>(
    alloc: Global,
    known: &Known<'a>,
    class: Option<u32>,
) -> Result<Scope<'a>, NoMemory>
    requires { IsKnown known.now }
    ensures { IfOk result (λ s. s ≡ scope_in known.now class false) }
{
    let s = Scope::within(
        alloc,
        known.names,
        known.classes,
        known.interfaces,
        &[],
        class,
        false,
    )?;
    Ok(s)
}
