//! What code is made by.

ghost use Rattle.std.specs.Prelude.{◌≡◌};
ghost use Rattle.st_types.specs.declared.st_type.StType.{StType as AType};
ghost use Rattle.st_meaning.specs.Call.{a_body, a_method};
ghost use Rattle.st_meaning.specs.st_frame.Use.{called_by};
ghost use Rattle.routine_tables.specs.Parameters.{parameters_of};
ghost use Rattle.call_steps.specs.Callee.{callee_seen, search_seen};
ghost use Rattle.code_rules.specs.Code.{call_op, method_call};
ghost use Rattle.codegen_tables.specs.Calls.{body_on, called_entry, method_on, routine_in, slot_in};
ghost use Rattle.codegen_tables.specs.Context.{plan_in};

use crate::calls::{CallEntry, CallTables};
use crate::sizes::Sizes;
use call_steps::{Callee, Search, class_of_kind};
use code_rules::LocalPlace;
use plc_text::Text;
use routine_tables::Parameter;
use st_types::StType;
use stack_code::Op;

/// Sizes, what calls name, the class whose text the routine is, and where its locals lie.
#[derive(Clone, Copy)]
pub struct Context<'p> {
    pub sizes: &'p Sizes,
    pub calls: &'p CallTables,
    pub class: Option<u32>,
    pub locals: &'p [LocalPlace],
}

fn routine_in(entry: Option<CallEntry>) -> u32
    ensures { result ≡ routine_in entry }
{
    match entry {
        Some(entry) => entry.routine,
        None => 0,
    }
}

fn slot_in(entry: Option<CallEntry>) -> u32
    ensures { result ≡ slot_in entry }
{
    match entry {
        Some(entry) => entry.slot,
        None => 0,
    }
}

/// The method that a call on a type names.
fn method_on(calls: &CallTables, kind: &StType, name: &Text) -> Option<CallEntry>
    ensures { result ≡ method_on calls.now kind.now name.now }
{
    match kind {
        StType::Instance(class) => calls.method(*class, name),
        StType::Interface(interface) => calls.signature(*interface, name),
        _ => None,
    }
}

fn body_on(calls: &CallTables, kind: &StType) -> Option<CallEntry>
    ensures { result ≡ body_on calls.now kind.now }
{
    match kind {
        StType::Instance(class) => calls.body(*class),
        _ => None,
    }
}

fn method_called(
    calls: &CallTables,
    search: Search,
    name: &Text,
    kind: &StType,
) -> Option<CallEntry>
    ensures { (whole : AType) → result ≡ called_entry calls.now (called_by (a_method (search_seen search) name.now) kind.now whole) }
{
    match search {
        Search::ByInstance => method_on(calls, kind, name),
        Search::FromClass(class) => calls.method(class, name),
    }
}

fn body_called(calls: &CallTables, search: Search, whole: &StType) -> Option<CallEntry>
    ensures { (kind : AType) → result ≡ called_entry calls.now (called_by (a_body (search_seen search)) kind whole.now) }
{
    match search {
        Search::ByInstance => body_on(calls, whole),
        Search::FromClass(class) => calls.body(class),
    }
}

fn called_entry(
    calls: &CallTables,
    callee: Callee<'_>,
    kind: &StType,
    whole: &StType,
) -> Option<CallEntry>
    ensures { result ≡ called_entry calls.now (called_by (callee_seen callee.entry) kind.now whole.now) }
{
    match callee {
        Callee::Conversion => None,
        Callee::Function(n) => calls.function(n),
        Callee::Method(search, name) => method_called(calls, search, name, kind),
        Callee::Body(search) => body_called(calls, search, whole),
    }
}

/// The parameters of what is called, by the type on which a method is called and that of the whole place.
pub fn called_parameters<'p>(
    c: &Context<'p>,
    callee: Callee<'_>,
    kind: &StType,
    whole: &StType,
) -> &'p [Parameter]
    ensures { parameters_of result.now ≡ (plan_in c.now).parameters (called_by (callee_seen callee.entry) kind.now whole.now) }
{
    c.calls
        .parameters_of(called_entry(c.calls, callee, kind, whole))
}

/// The call of a method by its name on a type.
fn method_call(c: &Context<'_>, kind: &StType, name: &Text) -> Op
    ensures { result ≡ method_call (plan_in c.now) kind.now name.now }
{
    match kind {
        StType::Interface(interface) => {
            Op::CallI(*interface, slot_in(c.calls.signature(*interface, name)), 1)
        }
        _ => {
            let class = class_of_kind(kind);
            Op::CallM(class, slot_in(c.calls.method(class, name)), 1)
        }
    }
}

fn method_op(c: &Context<'_>, search: Search, name: &Text, kind: &StType) -> Op
    ensures { (whole : AType) → result ≡ call_op (plan_in c.now) (a_method (search_seen search) name.now) kind.now whole }
{
    match search {
        Search::ByInstance => method_call(c, kind, name),
        Search::FromClass(class) => Op::Call(routine_in(c.calls.method(class, name)), 1),
    }
}

fn body_op(c: &Context<'_>, search: Search, whole: &StType) -> Op
    ensures { (kind : AType) → result ≡ call_op (plan_in c.now) (a_body (search_seen search)) kind whole.now }
{
    match search {
        Search::ByInstance => Op::CallM(class_of_kind(whole), 0, 1),
        Search::FromClass(class) => Op::Call(routine_in(c.calls.body(class)), 1),
    }
}

/// The instruction of a call, by the type on which a method is called and that of the whole place.
pub fn call_op(c: &Context<'_>, callee: Callee<'_>, kind: &StType, whole: &StType) -> Op
    ensures { result ≡ call_op (plan_in c.now) (callee_seen callee.entry) kind.now whole.now }
{
    match callee {
        Callee::Conversion => Op::Drop,
        Callee::Function(n) => Op::Call(routine_in(c.calls.function(n)), 1),
        Callee::Method(search, name) => method_op(c, search, name, kind),
        Callee::Body(search) => body_op(c, search, whole),
    }
}
