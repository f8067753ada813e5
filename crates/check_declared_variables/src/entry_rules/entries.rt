//! Entries of TYPE.

ghost use Rattle.std.specs.Prelude.{◌≡◌, IfOk};
ghost use Rattle.st_unit_rules.specs.DeclarationRules as rules;
ghost use Rattle.check_limits.specs.type_sizes.Sizes.{Measures};
ghost use Rattle.check_declared_variables.specs.entry_rules.Entries.{ChecksEntry};
ghost use Rattle.check_declared_variables.specs.entry_rules.Private.Entries.{IsEntry};

use crate::entry_rules::bodies::{CheckedBody, check_body};
use check_limits::TypeSizes;
use check_names::name_rules::space_fault;
use check_names::name_spaces::part_names;
use declared_graph::DeclaredGraph;
use name_resolution::Scope;
use plc_text::{Code, NoMemory};
use st_rules::earlier;
use st_tree::{Name, Note, TypeDecl};
use std::alloc::Global;

/// What is found out about an entry of TYPE.
#[derive(Drop)]
pub struct CheckedEntry {
    /// The least rule that is broken, with its least line.
    pub least: Option<(Code, u32)>,
    pub entry: TypeDecl<Note>,
}

/// An entry of this name, whose parts' names break this.
fn entry_of(name: Name, names: Option<(Code, u32)>, found: CheckedBody) -> CheckedEntry
    ensures { IsEntry result name names found }
{
    let CheckedBody { least, body } = found;
    CheckedEntry {
        least: earlier(names, least),
        entry: TypeDecl { name, body },
    }
}

/// Checks an entry of TYPE by its number, in the scope of its unit, where it is the declaration at this place: the least rule that it
/// breaks, but those of its own name, of cycles and of the number of declarations, and its typed tree.
pub fn check_entry(
    alloc: Global,
    s: &Scope<'_>,
    sizes: &TypeSizes,
    graph: &DeclaredGraph,
    place: usize,
    number: u32,
    entry: &TypeDecl<u32>,
) -> Result<CheckedEntry, NoMemory>
    requires unit { s.now ≡ rules.unit graph.now.decls }
    requires sizes { Measures sizes.now s.now }
    ensures { IfOk result (λ c. ChecksEntry c graph.now.decls place number entry.now) }
{
    let list = part_names(alloc, &entry.body)?;
    let parts = list.as_slice();
    let names = space_fault(alloc, parts)?;
    let own = &entry.name;
    let name = own.copy(alloc)?;
    let found = check_body(alloc, s, sizes, graph, own, place, number, &entry.body)?;
    Ok(entry_of(name, names, found))
}
