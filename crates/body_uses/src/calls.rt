//! What calls enter, and which of their arguments are bound to in-outs.

ghost use Rattle.std.specs.Prelude.{◌≡◌, ◌++◌, slice_get, option_map, OnOk};
ghost use Rattle.st_tree.specs.Expression.{selectors_of};
ghost use Rattle.st_meaning.specs.Place.{root_note};
ghost use Rattle.st_values.specs.Program as plain;
ghost use Rattle.st_values.specs.View.{program_of};
ghost use Rattle.st_meaning.specs.st_frame.Use as words;
ghost use Rattle.program_tables.specs.Routine.{routine_of};
ghost use Rattle.routine_tables.specs.Parameters.{parameter_of, parameters_of};
ghost use Rattle.call_steps.specs.Callee.{callee_seen};
ghost use Rattle.body_uses.specs.Uses.{called_of, uses_of, Knows};
ghost use Rattle.body_uses.specs.Private.Uses.{called_if};

use crate::places::{root_note, selector_note};
use crate::uses::{Called, Use};
use call_steps::{Callee, Search, callee_of};
use plc_text::{NoMemory, Text};
use program_tables::{ProgramTables, RoutineId};
use routine_tables::signature_tables::SignatureTables;
use routine_tables::{Parameter, RoutineTables};
use st_tree::{Note, Root, SectionSort, Selector};
use st_types::StType;

/// What tells the parameters of what is called: tables of one program.
#[derive(Clone, Copy)]
pub struct Callables<'a, 'p> {
    pub tables: &'a ProgramTables,
    pub routines: &'a RoutineTables<'p>,
    pub signatures: &'a SignatureTables,
}

/// The type of a whole place.
pub fn last_kind<'p>(kind: &'p StType, selectors: &'p [Selector<Note>]) -> &'p StType
    ensures { result.now ≡ words.last_kind kind.now (selectors_of selectors.now) }
{
    let mut at = kind;
    for selector in selectors {
        at = &selector_note(selector).kind;
    }
    at
}

/// The type on which a method is called: that of the place before its name; a bare name has that of THIS.
pub fn receiver<'p>(kind: &'p StType, selectors: &'p [Selector<Note>]) -> &'p StType
    ensures { result.now ≡ words.receiver kind.now (selectors_of selectors.now) }
{
    match selectors {
        [] => kind,
        [before @ .., _] => last_kind(kind, before),
    }
}

fn called_by<'p>(
    callee: Callee<'p>,
    kind: &'p StType,
    selectors: &'p [Selector<Note>],
) -> Option<Called<'p>>
    ensures { called_if result ≡ words.called_by (callee_seen callee.entry) (words.receiver kind.now (selectors_of selectors.now)) (words.last_kind kind.now (selectors_of selectors.now)) }
{
    match callee {
        Callee::Conversion => None,
        Callee::Function(number) => Some(Called::Function(number)),
        Callee::Method(search, name) => match search {
            Search::ByInstance => Some(Called::MethodOf(receiver(kind, selectors), name)),
            Search::FromClass(class) => Some(Called::MethodFrom(class, name)),
        },
        Callee::Body(search) => match search {
            Search::ByInstance => Some(Called::BodyOf(last_kind(kind, selectors))),
            Search::FromClass(class) => Some(Called::BodyFrom(class)),
        },
    }
}

/// What a call may enter; a conversion enters nothing.
pub fn called<'p>(root: &'p Root<Note>, selectors: &'p [Selector<Note>]) -> Option<Called<'p>>
    ensures { called_if result ≡ words.called_of root.now (selectors_of selectors.now) }
{
    called_by(callee_of(root, selectors), &root_note(root).kind, selectors)
}

/// Adds the call, where it enters something.
pub fn add_call<'p>(uses: &mut Vec<Use<'p>>, called: Option<Called<'p>>) -> Result<(), NoMemory>
    ensures { OnOk result (uses_of uses.new.items ≡ uses_of uses.old.items ++ words.call_use (called_if called.entry)) }
{
    if let Some(called) = called {
        uses.push(Use::Calls(called))?;
    }
    Ok(())
}

fn of_routine<'a>(c: Callables<'a, '_>, id: Option<RoutineId>) -> &'a [Parameter]
    requires { Knows c }
    ensures { parameters_of result.now ≡ words.parameters_of (option_map (routine_of c.entry.tables.now) id) }
{
    match id {
        Some(id) => c.routines.parameters(id),
        None => &[],
    }
}

fn of_method<'a>(c: Callables<'a, '_>, kind: &StType, name: &Text) -> &'a [Parameter]
    requires { Knows c }
    ensures { parameters_of result.now ≡ words.method_parameters (program_of c.entry.tables.now) kind.now name.now }
{
    match kind {
        StType::Instance(class) => of_routine(c, c.tables.lookup(*class, name)),
        StType::Interface(interface) => c.signatures.parameters(c.tables, *interface, name),
        _ => &[],
    }
}

fn of_body<'a>(c: Callables<'a, '_>, kind: &StType) -> &'a [Parameter]
    requires { Knows c }
    ensures { parameters_of result.now ≡ words.body_parameters (program_of c.entry.tables.now) kind.now }
{
    match kind {
        StType::Instance(class) => of_routine(c, c.tables.body_of(*class)),
        _ => &[],
    }
}

/// The parameters that what is called declares.
pub fn called_parameters<'a>(c: Callables<'a, '_>, called: Option<Called<'_>>) -> &'a [Parameter]
    requires { Knows c }
    ensures { parameters_of result.now ≡ words.called_parameters (program_of c.entry.tables.now) (called_if called.entry) }
{
    match called {
        None => &[],
        Some(called) => match called {
            Called::Function(number) => of_routine(c, c.tables.function(number)),
            Called::MethodOf(kind, name) => of_method(c, kind, name),
            Called::MethodFrom(class, name) => of_routine(c, c.tables.lookup(class, name)),
            Called::BodyOf(kind) => of_body(c, kind),
            Called::BodyFrom(class) => of_routine(c, c.tables.body_of(class)),
        },
    }
}

/// Whether what is given to a parameter is bound to it.
pub fn is_bound(parameter: Option<Parameter>) -> bool
    ensures { result ≡ words.is_bound (option_map parameter_of parameter) }
{
    match parameter {
        Some(parameter) => matches!(parameter.sort, SectionSort::InOut),
        None => false,
    }
}
