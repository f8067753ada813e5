//! Where the first declaration of each name stands.

ghost use Rattle.std.specs.Prelude.{◌≡◌, map, Some, IfOk, slice_get};
ghost use Rattle.st_unit_rules.specs.declared_names.Declarations.{is_class};
ghost use Rattle.st_unit_rules.specs.Cycles as cycles;
ghost use Rattle.st_unit_rules.specs.declaration_list.Listed.{declared_as};
ghost use Rattle.declared_graph.specs.Private.Known.{found_in, IsTableOf, passes, declared, AreTables, is_constant, constant_if};

use plc_text::{NoMemory, Text};
use st_unit_rules::declaration_list::Declared;
use std::alloc::Global;
use std::collections::HashMap;

/// Where the first of each name stands.
pub type Places = HashMap<Text, usize>;

/// Which declarations count.
#[derive(Clone, Copy)]
pub enum Which {
    Types,
    Classes,
    GlobalsAndFunctions,
}

/// The declarations of a unit, and where the first of each name stands.
#[derive(Drop)]
pub struct Known<'a> {
    pub list: &'a [Declared<'a>],
    pub types: Places,
    pub classes: Places,
    pub globals: Places,
}

fn is_type(declared: &Declared<'_>) -> bool
    ensures { result ≡ cycles.is_type (declared_as declared.now) }
{
    matches!(
        declared,
        Declared::Entry(_) | Declared::Interface(_) | Declared::Class(_)
    )
}

fn is_class(declared: &Declared<'_>) -> bool
    ensures { result ≡ is_class (declared_as declared.now) }
{
    matches!(declared, Declared::Class(_))
}

fn is_global_or_function(declared: &Declared<'_>) -> bool
    ensures { result ≡ cycles.is_global_or_function (declared_as declared.now) }
{
    matches!(declared, Declared::Global(_) | Declared::Function(_))
}

fn passes(which: Which, declared: &Declared<'_>) -> bool
    ensures { result ≡ passes which (declared_as declared.now) }
{
    match which {
        Which::Types => is_type(declared),
        Which::Classes => is_class(declared),
        Which::GlobalsAndFunctions => is_global_or_function(declared),
    }
}

fn places(alloc: Global, list: &[Declared<'_>], which: Which) -> Result<Places, NoMemory>
    ensures { IfOk result (λ table. IsTableOf (passes which) table (map declared_as list.now)) }
{
    let mut table: Places = HashMap::new(alloc);
    let mut i = list.len();
    'places: while i > 0 {
        i -= 1;
        let declared = &list[i];
        if passes(which, declared) {
            let name = Text::copy(alloc, declared.name().text.as_str())?;
            table.insert(name, i)?;
        }
    }
    Ok(table)
}

/// Where the first of each name stands among the declarations.
pub fn know<'a>(alloc: Global, list: &'a [Declared<'a>]) -> Result<Known<'a>, NoMemory>
    ensures tables { IfOk result AreTables }
    ensures list { IfOk result (λ known. known.list.now ≡ list.now) }
{
    let types = places(alloc, list, Which::Types)?;
    let classes = places(alloc, list, Which::Classes)?;
    let globals = places(alloc, list, Which::GlobalsAndFunctions)?;
    Ok(Known {
        list,
        types,
        classes,
        globals,
    })
}

/// Where the first of the name stands.
pub fn place_of(table: &Places, name: &Text) -> Option<usize>
    ensures { result ≡ found_in table.now name.now }
{
    table.get(name).copied()
}

fn is_constant(declared: &Declared<'_>) -> bool
    ensures { result ≡ is_constant (declared_as declared.now) }
{
    match declared {
        Declared::Global(global) => global.is_constant(),
        _ => false,
    }
}

/// The place, if the declaration is a constant.
fn if_constant(declared: &Declared<'_>, place: usize) -> Option<usize>
    ensures { result ≡ constant_if place (Some (declared_as declared.now)) }
{
    if is_constant(declared) {
        Some(place)
    } else {
        None
    }
}

/// The place, if a constant stands there.
fn constant_at(list: &[Declared<'_>], place: usize) -> Option<usize>
    ensures { result ≡ constant_if place (slice_get (map declared_as list.now) place) }
{
    match list.get(place) {
        Some(declared) => if_constant(declared, place),
        None => None,
    }
}

impl<'a> Known<'a> {
    /// The first type of the name.
    pub fn type_place(&self, name: &Text) -> Option<usize>
        requires { AreTables self.now }
        ensures { result ≡ cycles.type_place (declared self.now) name.now }
    {
        place_of(&self.types, name)
    }

    /// The first class of the name.
    pub fn class_place(&self, name: &Text) -> Option<usize>
        requires { AreTables self.now }
        ensures { result ≡ cycles.class_place (declared self.now) name.now }
    {
        place_of(&self.classes, name)
    }

    /// The global constant that the name means.
    #[tactic(auto, using(crate::proofs::PlaceLaws::constant_is))]
    pub fn constant_place(&self, name: &Text) -> Option<usize>
        requires { AreTables self.now }
        ensures { result ≡ cycles.constant_place (declared self.now) name.now }
    {
        let place = place_of(&self.globals, name)?;
        constant_at(self.list, place)
    }
}
