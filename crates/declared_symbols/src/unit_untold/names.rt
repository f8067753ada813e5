//! The names of a unit.

ghost use Rattle.std.specs.Prelude.{◌≡◌, ◌∷◌, [], ◌++◌, List, ℕ, IfOk, OnOk};
ghost use Rattle.st_tree.specs.declared.unit.Decl.{Decl as ADecl};
ghost use Rattle.st_rules.specs.Classes.{classes_in};
ghost use Rattle.st_unit_rules.specs.declared_names.UnitNames.{names_told};
ghost use Rattle.declared_symbols.specs.class_chains.Cells.{AreChains};
ghost use Rattle.declared_symbols.specs.untold_names.Untold as untold;
ghost use Rattle.declared_symbols.specs.unit_untold.Private.Counts as counts;
ghost use Rattle.declared_symbols.specs.unit_untold.Private.Counts.{AreSums};

use crate::class_chains::ClassChains;
use crate::unit_untold::counts::{Counts, all_own};
use crate::unit_untold::sums::{counts_above, totals_of};
use crate::untold_names::{
    untold_class, untold_globals, untold_interfaces, untold_parts, untold_types,
};
use class_tables::ClassTables;
use plc_text::{NoMemory, Series, one_more};
use st_rules::{DeclaredClass, DeclaredNames};
use st_tree::{ClassDecl, Decl, Unit};
use std::alloc::Global;

/// What the classes declare by themselves, what they declare from each cell of their chains on, and the first cell of each.
#[derive(Clone, Copy)]
struct Sums<'a> {
    own: &'a [Counts],
    totals: &'a [Counts],
    firsts: &'a [u32],
}

/// Adds a class, which has this number.
fn add_class(
    alloc: Global,
    list: &mut Series<DeclaredClass>,
    sums: &Sums<'_>,
    number: u32,
    class: &ClassDecl<u32>,
) -> Result<(), NoMemory>
    ensures { OnOk result ((decls : List (ADecl ℕ)) → AreSums decls sums.now.own.now sums.now.totals.now sums.now.firsts.now → list.new ≡ list.old ++ counts.class_at decls number class.now ∷ []) }
{
    let above = counts_above(sums.own, sums.totals, sums.firsts, number)?;
    let declared = untold_class(alloc, above.kept, above.body, class)?;
    list.push(declared)?;
    Ok(())
}

/// Adds the class that a declaration is; the number of the next class.
fn add_declaration(
    alloc: Global,
    list: &mut Series<DeclaredClass>,
    sums: &Sums<'_>,
    number: u32,
    decl: &Decl<u32>,
) -> Result<u32, NoMemory>
    ensures { IfOk result (λ after. (decls : List (ADecl ℕ)) → AreSums decls sums.now.own.now sums.now.totals.now sums.now.firsts.now → (ds : List (ADecl ℕ)) → list.new ++ counts.classes_from decls after (classes_in ds) ≡ list.old ++ counts.classes_from decls number (classes_in (decl.now ∷ ds))) }
{
    match decl {
        Decl::Class(class) => {
            add_class(alloc, list, sums, number, class)?;
            let after = one_more(number)?;
            Ok(after)
        }
        Decl::Types(_, _) => Ok(number),
        Decl::Globals(_) => Ok(number),
        Decl::Interface(_) => Ok(number),
        Decl::Function(_) => Ok(number),
        Decl::Program(_) => Ok(number),
        Decl::Configuration(_) => Ok(number),
    }
}

fn add_classes(
    alloc: Global,
    sums: &Sums<'_>,
    decls: &[Decl<u32>],
) -> Result<Series<DeclaredClass>, NoMemory>
    requires { AreSums decls.now sums.now.own.now sums.now.totals.now sums.now.firsts.now }
    ensures { IfOk result (λ list. list ≡ untold.untold_classes decls.now) }
{
    let mut list = Series::new(alloc);
    let mut number: u32 = 0;
    for decl in decls {
        number = add_declaration(alloc, &mut list, sums, number, decl)?;
    }
    Ok(list)
}

/// The classes of a unit, each with its variables numbered behind those of its bases.
fn untold_classes(
    alloc: Global,
    chains: &ClassChains,
    decls: &[Decl<u32>],
) -> Result<Series<DeclaredClass>, NoMemory>
    requires { AreChains chains.now.cells.items (classes_in decls.now) chains.now.firsts.items }
    ensures { IfOk result (λ list. list ≡ untold.untold_classes decls.now) }
{
    let own = all_own(alloc, decls)?;
    let totals = totals_of(alloc, &own, &chains.cells)?;
    let sums = Sums {
        own: &own,
        totals: &totals,
        firsts: &chains.firsts,
    };
    let list = add_classes(alloc, &sums, decls)?;
    Ok(list)
}

/// All names of a unit with nothing told of them: no type, and no value of a constant. It takes time and memory linear in the unit, but for
/// one class on each cycle of bases, which takes what its cycle has.
pub fn unit_untold(
    alloc: Global,
    unit: &Unit,
    classes: &ClassTables,
) -> Result<DeclaredNames, NoMemory>
    requires { classes.now ≡ unit.now }
    ensures { IfOk result (λ names. names ≡ names_told unit.now.decls 0) }
{
    let decls = unit.decls.as_slice();
    let chains = ClassChains::build(alloc, unit, classes, 0)?;
    let types = untold_types(alloc, decls)?;
    let parts = untold_parts(alloc, decls)?;
    let classes = untold_classes(alloc, &chains, decls)?;
    let interfaces = untold_interfaces(alloc, decls)?;
    let globals = untold_globals(alloc, decls)?;
    Ok(DeclaredNames {
        types,
        parts,
        classes,
        interfaces,
        globals,
    })
}
