//! What the texts of a unit are checked by.

use check_limits::TypeSizes;
use declared_graph::DeclaredGraph;
use name_resolution::NameTables;
use st_tree::ClassDecl;

/// What the texts of a unit are checked by, beside the scope of each.
#[derive(Clone, Copy)]
pub struct UnitParts<'a> {
    pub names: &'a NameTables,
    /// In the order of the text.
    pub classes: &'a [&'a ClassDecl<u32>],
    pub sizes: &'a TypeSizes,
    pub graph: &'a DeclaredGraph,
}
