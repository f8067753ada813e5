//! The parts of the tables of a unit by which its texts are checked.

ghost use Rattle.std.specs.Prelude.{◌≡◌, ℕ, Bool, List, Option};
ghost use Rattle.st_rules.specs.declared.names.DeclaredVariable.{DeclaredVariable as ADeclaredVariable};
ghost use Rattle.check_routines.specs.routine_rules.Parts.{Serves};
ghost use Rattle.symbol_table.specs.unit_tables.Scopes.{scope_in};

use crate::routine_rules::UnitParts;
use symbol_table::unit_tables::UnitTables;

/// What the texts of a unit are checked by, beside the scope of each.
pub fn parts_of<'a>(tables: &'a UnitTables<'_>) -> UnitParts<'a>
    ensures unit { result.graph.now.decls ≡ tables.now.decls }
    ensures serves { (class : Option ℕ) (in_method : Bool) (vs : List ADeclaredVariable) → Serves result (scope_in tables.now.decls class in_method vs) }
{
    UnitParts {
        names: tables.names(),
        classes: tables.classes(),
        sizes: tables.sizes(),
        graph: tables.graph(),
    }
}
