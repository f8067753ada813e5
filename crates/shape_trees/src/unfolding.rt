//! Types unfolded (IEC 61131-3:2013, 6.4).

ghost use Rattle.std.specs.Prelude.{◌≡◌, IfOk, is_some, option_map};
ghost use Rattle.st_types.specs.declared.st_type.StType.TheOpen.{StType-F};
ghost use Rattle.st_values.specs.Shape as plain;
ghost use Rattle.st_values.specs.View.{program_of, type_body};
ghost use Rattle.program_tables.specs.st_initial.Members as tables;
ghost use Rattle.program_tables.specs.st_initial.Variables.{variables_of};
ghost use Rattle.shape_trees.specs.Shape.{shape_of};
ghost use Rattle.shape_trees.specs.Unfolding.{AreShapes, shape_in};
ghost use Rattle.shape_trees.specs.Private.Unfolding.{AreFound, IsFound};

use crate::names::{class_name, count};
use crate::shape::{Field, Shape};
use plc_text::{Boxed, Items, NoMemory};
use program_tables::{Members, Variable};
use st_tree::{Note, Program, TypeBody};
use st_types::StType;
use std::alloc::Global;

/// Steps of containment that types may have.
const DEPTH: u32 = 65;

/// The shape of an enumeration.
fn enumeration(program: &Program, number: u32) -> Option<Shape<'_>>
    ensures { IsFound (program_of program.now) (plain.simple_shape (program_of program.now) (StType-F.Enumeration number)) result }
{
    match program.types.get(number as usize) {
        Some(decl) => match &decl.body {
            TypeBody::Enumeration(values) => Some(Shape::Enumeration(&decl.name.text, values)),
            TypeBody::Alias(_) => None,
            TypeBody::Structure(_) => None,
        },
        None => None,
    }
}

/// The shape of a reference to a class.
fn reference(program: &Program, class: u32) -> Option<Shape<'_>>
    ensures { IsFound (program_of program.now) (plain.simple_shape (program_of program.now) (StType-F.Reference class)) result }
{
    match class_name(program, class) {
        Some(name) => Some(Shape::Reference(class, name)),
        None => None,
    }
}

/// The shape of an interface.
fn interface(program: &Program, number: u32) -> Option<Shape<'_>>
    ensures { IsFound (program_of program.now) (plain.simple_shape (program_of program.now) (StType-F.Interface number)) result }
{
    match program.interfaces.get(number as usize) {
        Some(decl) => Some(Shape::Interface(number, &decl.name.text)),
        None => None,
    }
}

/// The shape of a type with at most so many arrays, structures and instances within one another.
#[cycle(unfolding)]
fn unfold<'p>(
    alloc: Global,
    program: &'p Program,
    members: &Members<'p>,
    depth: u32,
    kind: &StType,
) -> Result<Option<Shape<'p>>, NoMemory>
    requires { tables.Holds (program_of program.now) members.now }
    ensures { IfOk result (λ found. IsFound (program_of program.now) (plain.shape_within (program_of program.now) depth kind.now) found) }
{
    match kind {
        StType::Elementary(e) => Ok(Some(Shape::Elementary(*e))),
        StType::Enumeration(n) => Ok(enumeration(program, *n)),
        StType::Reference(c) => Ok(reference(program, *c)),
        StType::Interface(i) => Ok(interface(program, *i)),
        StType::Array(low, high, of) => {
            if depth == 0 {
                return Ok(None);
            }
            unfold_array(alloc, program, members, depth - 1, low, high, of.get())
        }
        StType::Structure(n) => {
            if depth == 0 {
                return Ok(None);
            }
            unfold_structure(alloc, program, members, depth - 1, *n)
        }
        StType::Instance(c) => {
            if depth == 0 {
                return Ok(None);
            }
            unfold_instance(alloc, program, members, depth - 1, *c)
        }
    }
}

/// The shape of an array of elements of a type.
#[cycle(unfolding)]
fn unfold_array<'p>(
    alloc: Global,
    program: &'p Program,
    members: &Members<'p>,
    depth: u32,
    low: &i128,
    high: &i128,
    of: &StType,
) -> Result<Option<Shape<'p>>, NoMemory>
    requires { tables.Holds (program_of program.now) members.now }
    ensures { IfOk result (λ found. IsFound (program_of program.now) (plain.shape_by (program_of program.now) (plain.shape_within (program_of program.now) depth) (StType-F.Array low.now high.now of.now)) found) }
{
    match unfold(alloc, program, members, depth, of)? {
        Some(element) => {
            let Some(count) = count(low, high) else {
                return Err(NoMemory);
            };
            let element = Boxed::new(alloc, element)?;
            Ok(Some(Shape::Array(*low, count, element)))
        }
        None => Ok(None),
    }
}

/// The shape of a structure.
#[cycle(unfolding)]
fn unfold_structure<'p>(
    alloc: Global,
    program: &'p Program,
    members: &Members<'p>,
    depth: u32,
    number: u32,
) -> Result<Option<Shape<'p>>, NoMemory>
    requires { tables.Holds (program_of program.now) members.now }
    ensures { IfOk result (λ found. IsFound (program_of program.now) (plain.shape_by (program_of program.now) (plain.shape_within (program_of program.now) depth) (StType-F.Structure number)) found) }
{
    let Some(decl) = program.types.get(number as usize) else {
        return Ok(None);
    };
    if !is_structure(&decl.body) {
        return Ok(None);
    }
    let variables = members.structures.get(number as usize);
    match unfold_fields(alloc, program, members, depth, variables)? {
        Some(fields) => Ok(Some(Shape::Structure(number, &decl.name.text, fields))),
        None => Ok(None),
    }
}

/// The shape of an instance of a class or a program.
#[cycle(unfolding)]
fn unfold_instance<'p>(
    alloc: Global,
    program: &'p Program,
    members: &Members<'p>,
    depth: u32,
    class: u32,
) -> Result<Option<Shape<'p>>, NoMemory>
    requires { tables.Holds (program_of program.now) members.now }
    ensures { IfOk result (λ found. IsFound (program_of program.now) (plain.shape_by (program_of program.now) (plain.shape_within (program_of program.now) depth) (StType-F.Instance class)) found) }
{
    let Some(name) = class_name(program, class) else {
        return Ok(None);
    };
    let variables = members.classes.get(class as usize);
    match unfold_fields(alloc, program, members, depth, variables)? {
        Some(fields) => Ok(Some(Shape::Instance(class, name, fields))),
        None => Ok(None),
    }
}

/// Variables with the shapes of their types.
#[cycle(unfolding)]
fn unfold_fields<'p>(
    alloc: Global,
    program: &'p Program,
    members: &Members<'p>,
    depth: u32,
    variables: Option<&Items<Variable<'p>>>,
) -> Result<Option<Items<Field<'p>>>, NoMemory>
    requires { tables.Holds (program_of program.now) members.now }
    ensures { IfOk result (λ found. AreFound (program_of program.now) (plain.fields_by (plain.shape_within (program_of program.now) depth) (variables_of (tables.items_at (option_map (λ vs. vs.now) variables.entry)))) found) }
{
    let mut fields = Items::new(alloc);
    let Some(variables) = variables else {
        return Ok(Some(fields));
    };
    for variable in variables.as_slice() {
        match unfold(alloc, program, members, depth, variable.kind)? {
            Some(shape) => fields.push(Field {
                variable: *variable,
                shape,
            })?,
            None => return Ok(None),
        }
    }
    Ok(Some(fields))
}

/// The shape of a type, where it has one.
pub fn type_shape<'p>(
    alloc: Global,
    program: &'p Program,
    members: &Members<'p>,
    kind: &StType,
) -> Result<Option<Shape<'p>>, NoMemory>
    requires { tables.Holds (program_of program.now) members.now }
    ensures { IfOk result (λ found. option_map shape_of found ≡ plain.shape_of (program_of program.now) kind.now) }
{
    let found = unfold(alloc, program, members, DEPTH, kind)?;
    Ok(found)
}

/// Whether a type has fields.
fn is_structure(body: &TypeBody<Note>) -> bool
    ensures { result ≡ is_some (plain.fields_of (type_body body.now)) }
{
    match body {
        TypeBody::Structure(_) => true,
        TypeBody::Alias(_) => false,
        TypeBody::Enumeration(_) => false,
    }
}

/// The shapes of the regions of a program, by number; none of a region whose type does not unfold.
#[derive(Drop)]
pub struct Shapes<'p> {
    pub list: Items<Option<Shape<'p>>>,
}

/// The shape of a region, where it has one.
pub fn region_shape<'a, 'p>(shapes: &'a Shapes<'p>, region: u32) -> Option<&'a Shape<'p>>
    ensures { option_map (λ sh. shape_of sh.now) result ≡ shape_in shapes.now.list region }
{
    match shapes.list.get(region as usize) {
        Some(Some(shape)) => Some(shape),
        Some(None) => None,
        None => None,
    }
}

/// The shapes of the regions of a program.
pub fn region_shapes<'p>(
    alloc: Global,
    program: &'p Program,
    members: &Members<'p>,
) -> Result<Shapes<'p>, NoMemory>
    requires { tables.Holds (program_of program.now) members.now }
    ensures { IfOk result (λ all. AreShapes (program_of program.now) all.list) }
{
    let mut all = Items::new(alloc);
    for decl in program.regions.as_slice() {
        let shape = unfold(alloc, program, members, DEPTH, &decl.kind)?;
        all.push(shape)?;
    }
    Ok(Shapes { list: all })
}
