//! To which interfaces each interface leads.

ghost use Rattle.std.specs.Prelude.{◌≡◌, true, map, length, IfOk};
ghost use Rattle.graph_reach.specs.Reach.{AreReached};
ghost use Rattle.program_tables.specs.Private.Bases as bases;
ghost use Rattle.program_tables.specs.Private.Places.{IsTableOf, interface_name};

use crate::places::Places;
use graph_reach::{Row, find_reached};
use plc_text::{Items, NoMemory};
use st_tree::{InterfaceDecl, Note};
use std::alloc::Global;

/// To which interfaces each interface leads, by the lists of those behind EXTENDS.
pub fn reach(
    alloc: Global,
    places: &Places,
    interfaces: &[InterfaceDecl<Note>],
    lists: &[Items<u32>],
) -> Result<Vec<Row>, NoMemory>
    requires table { IsTableOf interface_name (λ d. true) 0 places.now interfaces.now }
    requires extended { lists.now ≡ map (bases.extended_by places.now) interfaces.now }
    ensures { IfOk result (λ rows. AreReached lists.now (length interfaces.now) rows.items) }
{
    find_reached(alloc, lists, interfaces.len())
}
