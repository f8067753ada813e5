//! The value of a place of a type (IEC 61131-3:2013, 6.5.1.3 and 6.5.1.4).

ghost use Rattle.std.specs.Prelude.{◌≡◌, None, IfOk, IfSome, OnOk, is_some, option_map, slice_get};
ghost use Rattle.st_tree.specs.Initial.{fields_of};
ghost use Rattle.st_values.specs.Initial as words;
ghost use Rattle.st_values.specs.Program.{class_at};
ghost use Rattle.st_values.specs.Shape.{extent};
ghost use Rattle.st_values.specs.View.{program_of, region_of};
ghost use Rattle.program_tables.specs.st_initial.Given.{inits_of};
ghost use Rattle.program_tables.specs.st_initial.Members as tables;
ghost use Rattle.program_tables.specs.st_initial.Variables.{variable_of, variables_of};
ghost use Rattle.st_values.specs.Value.{array, member_then, no_members, no_values, number, reference, value_then};
ghost use Rattle.value_trees.specs.Value.{value_of, values_of, members_of};
ghost use Rattle.initial_trees.specs.Private.Given.{IsIndex};
ghost use Rattle.initial_trees.specs.Private.Trees as trees;
ghost use Rattle.initial_trees.specs.Private.Trees.{given_by, members_behind, values_behind};

use crate::given::{Places, given_named, index_of};
use crate::kinds::{class_name, has_interface, is_enumeration, structure_name};
use plc_text::{Items, NoMemory, Series, Text};
use program_tables::{Members, Variable, elements_given, fields_given, number_given};
use st_tree::{FieldInit, Init, Note, Program, RegionDecl};
use st_types::StType;
use std::alloc::Global;
use value_trees::{Member, Value};

/// Steps of containment that types may have.
const DEPTH: u32 = 65;

/// How many indices there are between two bounds, where a list can have so many.
fn count(low: &i128, high: &i128) -> Option<usize>
    ensures { IfSome result (λ n. n ≡ extent low.now high.now) }
{
    if *high < *low {
        return Some(0);
    }
    let last = usize::try_from(high.checked_sub(*low)?).ok()?;
    last.checked_add(1)
}

/// The number that is given.
#[tactic(auto, using(value_trees::specs::Value::value_views))]
fn number_value(given: Option<&Init<Note>>) -> Value
    ensures { value_of result ≡ number (words.number_given (given_by given.entry)) }
{
    Value::Number(number_given(given))
}

/// A reference or an interface variable that holds NULL.
#[tactic(auto, using(value_trees::specs::Value::value_views))]
fn null_value() -> Value
    ensures { value_of result ≡ reference None }
{
    Value::Reference(None)
}

#[tactic(auto, using(value_trees::specs::Value::value_views))]
fn array_value(low: &i128, elements: Series<Value>) -> Value
    ensures { value_of result ≡ array low.now (values_of elements) }
{
    Value::Array(*low, elements)
}

/// The elements of an array that has none, where their type has a value.
fn no_elements(alloc: Global, one: Option<Value>) -> Option<Series<Value>>
    ensures { option_map values_of result ≡ option_map (λ x. no_values) (option_map value_of one) }
{
    match one {
        Some(_) => Some(Series::new(alloc)),
        None => None,
    }
}

/// Whether there is a class or a program of this number.
fn has_class(program: &Program, c: u32) -> bool
    ensures { result ≡ is_some (class_at (program_of program.now) c) }
{
    match class_name(program, c) {
        Some(_) => true,
        None => false,
    }
}

/// What is given to a variable, else its own value.
fn given_to<'p>(
    variable: &Variable<'p>,
    index: &Option<Places>,
    inits: &'p [FieldInit<Note>],
) -> Option<&'p Init<Note>>
    requires { IsIndex index.now inits.now }
    ensures { given_by result ≡ trees.given_to (variable_of variable.now) (fields_of inits.now) }
{
    match given_named(index, inits, variable.name) {
        Some(init) => Some(init),
        None => variable.initial,
    }
}

/// What is given to the element of this number.
fn given_at<'p>(givens: &[&'p Init<Note>], k: usize) -> Option<&'p Init<Note>>
    ensures { given_by result ≡ slice_get (inits_of givens.now) k }
{
    givens.get(k).copied()
}

pub fn push_member(
    alloc: Global,
    found: &mut Series<Member>,
    name: &Text,
    value: Value,
) -> Result<(), NoMemory>
    ensures { OnOk result (members_of found.new ≡ members_behind (members_of found.old) (member_then name.now (value_of value) no_members)) }
{
    let name = Text::copy(alloc, name.as_str())?;
    found.push(Member { name, value })
}

fn push_value(found: &mut Series<Value>, value: Value) -> Result<(), NoMemory>
    ensures { OnOk result (values_of found.new ≡ values_behind (values_of found.old) (value_then (value_of value) no_values)) }
{
    found.push(value)
}

/// The value of a place of a type, where that unfolds to a depth.
#[cycle(trees)]
fn value_within(
    alloc: Global,
    program: &Program,
    members: &Members<'_>,
    depth: u32,
    kind: &StType,
    given: Option<&Init<Note>>,
) -> Result<Option<Value>, NoMemory>
    requires { tables.Holds (program_of program.now) members.now }
    ensures { IfOk result (λ v. option_map value_of v ≡ trees.value_within (program_of program.now) depth kind.now (given_by given.entry)) }
{
    match kind {
        StType::Elementary(_) => Ok(Some(number_value(given))),
        StType::Enumeration(n) => {
            if is_enumeration(program, *n) {
                return Ok(Some(number_value(given)));
            }
            Ok(None)
        }
        StType::Reference(c) => {
            if has_class(program, *c) {
                return Ok(Some(null_value()));
            }
            Ok(None)
        }
        StType::Interface(i) => {
            if has_interface(program, *i) {
                return Ok(Some(null_value()));
            }
            Ok(None)
        }
        StType::Array(low, high, of) => {
            if depth == 0 {
                return Ok(None);
            }
            let of = of.get();
            match array_within(alloc, program, members, depth - 1, of, low, high, given)? {
                Some(elements) => Ok(Some(array_value(low, elements))),
                None => Ok(None),
            }
        }
        StType::Structure(n) => {
            if depth == 0 {
                return Ok(None);
            }
            let v = structure_within(alloc, program, members, depth - 1, *n, given)?;
            Ok(v)
        }
        StType::Instance(c) => {
            if depth == 0 {
                return Ok(None);
            }
            let v = instance_within(alloc, program, members, depth - 1, *c, given)?;
            Ok(v)
        }
    }
}

/// The elements of an array, which has a value where their type has one, also where it has none of them.
#[cycle(trees)]
fn array_within(
    alloc: Global,
    program: &Program,
    members: &Members<'_>,
    depth: u32,
    of: &StType,
    low: &i128,
    high: &i128,
    given: Option<&Init<Note>>,
) -> Result<Option<Series<Value>>, NoMemory>
    requires { tables.Holds (program_of program.now) members.now }
    ensures { IfOk result (λ vs. option_map values_of vs ≡ trees.array_within (program_of program.now) depth of.now (extent low.now high.now) (given_by given.entry)) }
{
    let Some(end) = count(low, high) else {
        return Err(NoMemory);
    };
    if end == 0 {
        let one = value_within(alloc, program, members, depth, of, None)?;
        return Ok(no_elements(alloc, one));
    }
    let givens = elements_given(alloc, given, end)?;
    let elements = elements_within(alloc, program, members, depth, of, end, &givens)?;
    Ok(elements)
}

/// So many elements.
#[cycle(trees)]
fn elements_within(
    alloc: Global,
    program: &Program,
    members: &Members<'_>,
    depth: u32,
    of: &StType,
    end: usize,
    givens: &[&Init<Note>],
) -> Result<Option<Series<Value>>, NoMemory>
    requires { tables.Holds (program_of program.now) members.now }
    ensures { IfOk result (λ vs. option_map values_of vs ≡ trees.elements_within (program_of program.now) depth of.now (inits_of givens.now) 0 end) }
{
    let mut found = Series::new(alloc);
    for k in 0..end {
        let given = given_at(givens, k);
        match value_within(alloc, program, members, depth, of, given)? {
            Some(value) => push_value(&mut found, value)?,
            None => return Ok(None),
        }
    }
    Ok(Some(found))
}

/// The value of the structure of this number.
#[cycle(trees)]
fn structure_within(
    alloc: Global,
    program: &Program,
    members: &Members<'_>,
    depth: u32,
    n: u32,
    given: Option<&Init<Note>>,
) -> Result<Option<Value>, NoMemory>
    requires { tables.Holds (program_of program.now) members.now }
    ensures { IfOk result (λ v. option_map value_of v ≡ trees.structure_within (program_of program.now) depth n (given_by given.entry)) }
{
    let Some(name) = structure_name(program, n) else {
        return Ok(None);
    };
    let variables = members.structures.get(n as usize);
    match members_within(
        alloc,
        program,
        members,
        depth,
        variables,
        fields_given(given),
    )? {
        Some(fields) => Ok(Some(Value::Structure(Text::copy(alloc, name.as_str())?, fields))),
        None => Ok(None),
    }
}

/// The value of an instance of the class of this number.
#[cycle(trees)]
fn instance_within(
    alloc: Global,
    program: &Program,
    members: &Members<'_>,
    depth: u32,
    c: u32,
    given: Option<&Init<Note>>,
) -> Result<Option<Value>, NoMemory>
    requires { tables.Holds (program_of program.now) members.now }
    ensures { IfOk result (λ v. option_map value_of v ≡ trees.instance_within (program_of program.now) depth c (given_by given.entry)) }
{
    let Some(name) = class_name(program, c) else {
        return Ok(None);
    };
    let variables = members.classes.get(c as usize);
    match members_within(
        alloc,
        program,
        members,
        depth,
        variables,
        fields_given(given),
    )? {
        Some(fields) => Ok(Some(Value::Instance(Text::copy(alloc, name.as_str())?, fields))),
        None => Ok(None),
    }
}

/// The values of variables, where there are any.
#[cycle(trees)]
fn members_within(
    alloc: Global,
    program: &Program,
    members: &Members<'_>,
    depth: u32,
    variables: Option<&Items<Variable<'_>>>,
    inits: &[FieldInit<Note>],
) -> Result<Option<Series<Member>>, NoMemory>
    requires { tables.Holds (program_of program.now) members.now }
    ensures { IfOk result (λ ms. option_map members_of ms ≡ trees.members_within (program_of program.now) depth (variables_of (tables.items_at (option_map (λ vs. vs.now) variables.entry))) (fields_of inits.now)) }
{
    let Some(variables) = variables else {
        return Ok(Some(Series::new(alloc)));
    };
    let variables = variables.as_slice();
    let index = index_of(alloc, inits)?;
    let found = members_by(alloc, program, members, depth, variables, &index, inits)?;
    Ok(found)
}

/// The values of variables, by the index of what is given to them.
#[cycle(trees)]
fn members_by(
    alloc: Global,
    program: &Program,
    members: &Members<'_>,
    depth: u32,
    variables: &[Variable<'_>],
    index: &Option<Places>,
    inits: &[FieldInit<Note>],
) -> Result<Option<Series<Member>>, NoMemory>
    requires members { tables.Holds (program_of program.now) members.now }
    requires index { IsIndex index.now inits.now }
    ensures { IfOk result (λ ms. option_map members_of ms ≡ trees.members_within (program_of program.now) depth (variables_of variables.now) (fields_of inits.now)) }
{
    let mut found = Series::new(alloc);
    for variable in variables {
        let given = given_to(variable, index, inits);
        match value_within(alloc, program, members, depth, variable.kind, given)? {
            Some(value) => push_member(alloc, &mut found, variable.name, value)?,
            None => return Ok(None),
        }
    }
    Ok(Some(found))
}

/// The value with which a variable begins, where these are the members of the program. A type that contains itself has the number 0.
pub fn initial_value(
    alloc: Global,
    program: &Program,
    members: &Members<'_>,
    variable: &Variable<'_>,
) -> Result<Value, NoMemory>
    requires { tables.Holds (program_of program.now) members.now }
    ensures { IfOk result (λ v. value_of v ≡ words.initial_value (program_of program.now) (variable_of variable.now)) }
{
    let kind = variable.kind;
    match value_within(alloc, program, members, DEPTH, kind, variable.initial)? {
        Some(value) => Ok(value),
        None => Ok(Value::Number(0)),
    }
}

/// The value with which a region begins, where these are the members of the program.
pub fn value_of_region(
    alloc: Global,
    program: &Program,
    members: &Members<'_>,
    region: &RegionDecl,
) -> Result<Value, NoMemory>
    requires { tables.Holds (program_of program.now) members.now }
    ensures { IfOk result (λ v. value_of v ≡ words.initial_value (program_of program.now) (region_of region.now).variable) }
{
    let kind = &region.kind;
    match value_within(
        alloc,
        program,
        members,
        DEPTH,
        kind,
        region.initial.as_ref(),
    )? {
        Some(value) => Ok(value),
        None => Ok(Value::Number(0)),
    }
}
