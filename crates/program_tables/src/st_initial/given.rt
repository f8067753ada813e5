//! What an initial value gives to a number, to the elements of an array and to fields.

ghost use Rattle.std.specs.Prelude.{◌≡◌, ◌≤◌, ◌++◌, take, length, replicate, option_map, IfOk, OnOk};
ghost use Rattle.st_tree.specs.Expression.{expression_of};
ghost use Rattle.st_tree.specs.Initial.{initial_of, part_of, parts_of, fields_of};
ghost use Rattle.st_values.specs.Initial as words;
ghost use Rattle.program_tables.specs.st_initial.Given.{inits_of};
ghost use Rattle.program_tables.specs.st_initial.Private.Given.{part_gives};

use plc_text::{NoMemory, Text};
use st_tree::{Expr, FieldInit, Init, Note, Part, Target, number_of};
use std::alloc::Global;

/// The number of a constant or an enumerator.
fn constant(target: &Target) -> i128
    ensures { result ≡ words.constant target.now }
{
    match target {
        Target::Constant(z) => *z,
        Target::Enumerator(k) => i128::from(*k),
        _ => 0,
    }
}

/// The note at the head of an expression.
#[tactic(auto, using(st_tree::specs::Expression::expression_views))]
fn note_of(e: &Expr<Note>) -> &Note
    ensures { result.now ≡ words.note_of (expression_of e.now) }
{
    match e {
        Expr::Int(a, _) => a,
        Expr::Typed(a, _, _) => a,
        Expr::Time(a, _) => a,
        Expr::True(a) => a,
        Expr::False(a) => a,
        Expr::Null(a) => a,
        Expr::Place(a, _) => a,
        Expr::Call(a, _, _) => a,
        Expr::Enumerator(a, _, _, _) => a,
        Expr::Ref(a, _) => a,
        Expr::Now(a) => a,
        Expr::Paren(a, _) => a,
        Expr::Not(a, _) => a,
        Expr::Negate(a, _) => a,
        Expr::Chain(a, _, _) => a,
    }
}

/// The number that is given, 0 where none is.
#[tactic(auto, using(st_tree::specs::Initial::initial_views))]
pub fn number_given(given: Option<&Init<Note>>) -> i128
    ensures { result ≡ words.number_given (option_map (λ i. initial_of i.now) given.entry) }
{
    match given {
        None => 0,
        Some(init) => match init {
            Init::Value(e) => constant(&note_of(e).target),
            Init::Array(_, _) => 0,
            Init::Fields(_, _) => 0,
        },
    }
}

/// The parts of the list that is given to an array.
#[tactic(auto, using(st_tree::specs::Initial::initial_views))]
fn parts_given(given: Option<&Init<Note>>) -> &[Part<Note>]
    ensures { words.list_given (option_map (λ i. initial_of i.now) given.entry) ≡ words.listed (parts_of result.now) }
{
    match given {
        None => &[],
        Some(init) => match init {
            Init::Array(_, parts) => parts.as_slice(),
            Init::Value(_) => &[],
            Init::Fields(_, _) => &[],
        },
    }
}

/// What is given to fields.
#[tactic(auto, using(st_tree::specs::Initial::initial_views))]
pub fn fields_given(given: Option<&Init<Note>>) -> &[FieldInit<Note>]
    ensures { words.fields_given (option_map (λ i. initial_of i.now) given.entry) ≡ fields_of result.now }
{
    match given {
        None => &[],
        Some(init) => match init {
            Init::Fields(_, fields) => fields.as_slice(),
            Init::Value(_) => &[],
            Init::Array(_, _) => &[],
        },
    }
}

/// What is given to the field of a name.
#[tactic(auto, using(crate::proofs::st_initial::GivenLaws::field_found, crate::proofs::st_initial::GivenLaws::field_next, crate::proofs::st_initial::GivenLaws::field_missing))]
pub fn given_for<'p>(name: &Text, fields: &'p [FieldInit<Note>]) -> Option<&'p Init<Note>>
    ensures { option_map (λ i. initial_of i.now) result ≡ words.given_for name.now (fields_of fields.now) }
{
    for field in fields {
        if field.name == *name {
            return Some(&field.value);
        }
    }
    None
}

/// Adds a value so many times, up to a limit.
fn push_times<'p>(
    out: &mut Vec<&'p Init<Note>>,
    init: &'p Init<Note>,
    count: u64,
    limit: usize,
) -> Result<(), NoMemory>
    requires { length out.old.items ≤ limit }
    ensures { OnOk result (inits_of out.new.items ≡ take limit (inits_of out.old.items ++ replicate count (initial_of init.now))) }
{
    let mut left = count;
    while left > 0 {
        if out.len() >= limit {
            return Ok(());
        }
        out.push(init)?;
        left -= 1;
    }
    Ok(())
}

/// Adds what a part of a list gives, up to a limit. No list has as many values as take more than 64 bits to count.
#[tactic(auto, using(st_tree::specs::Initial::initial_views))]
fn push_part<'p>(
    out: &mut Vec<&'p Init<Note>>,
    part: &'p Part<Note>,
    limit: usize,
) -> Result<(), NoMemory>
    requires { length out.old.items ≤ limit }
    ensures { OnOk result (inits_of out.new.items ≡ take limit (inits_of out.old.items ++ part_gives (part_of part.now))) }
{
    match part {
        Part::One(init) => push_times(out, init, 1, limit),
        Part::Repeated(_, digits, init) => match number_of(digits.as_str()) {
            Some(count) => push_times(out, init, count, limit),
            None => Err(NoMemory),
        },
    }
}

/// What is given to the elements of an array, up to a limit.
pub fn elements_given<'p>(
    alloc: Global,
    given: Option<&'p Init<Note>>,
    limit: usize,
) -> Result<Vec<&'p Init<Note>>, NoMemory>
    ensures { IfOk result (λ inits. inits_of inits.items ≡ take limit (words.list_given (option_map (λ i. initial_of i.now) given.entry))) }
{
    let mut out = Vec::new(alloc);
    for part in parts_given(given) {
        push_part(&mut out, part, limit)?;
    }
    Ok(out)
}
