//! The numbers with which a region begins (IEC 61131-3:2013, 6.5.1.3 and 6.5.1.4).

ghost use Rattle.std.specs.Prelude.{◌≡◌, [], ◌∷◌, ◌++◌, ◌+ℤ◌, pos, slice_get, take, IfOk, IfSome, OnOk, option_map};
ghost use Rattle.st_tree.specs.Initial.{initial_of, fields_of};
ghost use Rattle.st_values.specs.Initial as words;
ghost use Rattle.st_values.specs.Program.{Program as PlainProgram};
ghost use Rattle.st_values.specs.Shape.{Shape, extent, region_shape};
ghost use Rattle.st_values.specs.View.{program_of};
ghost use Rattle.program_tables.specs.st_initial.RegionNumbers as plain;
ghost use Rattle.program_tables.specs.st_initial.Variables.{variables_of};
ghost use Rattle.program_tables.specs.st_initial.Given.{inits_of};
ghost use Rattle.program_tables.specs.st_initial.Members as tables;
ghost use Rattle.program_tables.specs.st_initial.Private.Numbers as numbers;

use crate::st_initial::given::{elements_given, fields_given, given_for, number_given};
use crate::st_initial::members::{Members, members_of};
use crate::st_initial::variables::Variable;
use plc_text::{Items, NoMemory};
use st_tree::{FieldInit, Init, Note, Path, Program, Step, Steps};
use st_types::StType;
use std::alloc::Global;

/// Steps of containment that types may have.
const DEPTH: u32 = 65;

/// The path, and a step further.
fn further(alloc: Global, path: &Path, step: Step) -> Result<Path, NoMemory>
    ensures { IfOk result (λ longer. longer ≡ plain.further path.now step) }
{
    let mut steps = path.steps.copy(alloc)?;
    steps.push(step)?;
    Ok(Path {
        region: path.region,
        steps,
    })
}

/// Adds the number that is given at a path.
fn push_number(
    alloc: Global,
    given: Option<&Init<Note>>,
    path: &Path,
    out: &mut Vec<(Path, i128)>,
) -> Result<(), NoMemory>
    ensures { OnOk result (out.new.items ≡ out.old.items ++ (path.now, words.number_given (option_map (λ i. initial_of i.now) given.entry)) ∷ []) }
{
    let steps = path.steps.copy(alloc)?;
    let region = path.region;
    out.push((Path { region, steps }, number_given(given)))?;
    Ok(())
}

/// The value that is given to the element of this number.
fn given_at<'p>(givens: &[&'p Init<Note>], k: usize) -> Option<&'p Init<Note>>
    ensures { result ≡ slice_get givens.now k }
{
    givens.get(k).copied()
}

/// How many indices there are between two bounds, where a list can have so many.
fn count(low: i128, high: i128) -> Option<usize>
    ensures { IfSome result (λ n. n ≡ extent low high) }
{
    if high < low {
        return Some(0);
    }
    let last = usize::try_from(high.checked_sub(low)?).ok()?;
    last.checked_add(1)
}

/// The path of the element of this number, where the least index is `low`.
fn element(alloc: Global, path: &Path, low: &i128, k: usize) -> Result<Path, NoMemory>
    ensures { IfOk result (λ longer. longer ≡ plain.further path.now (Step.Element (low.now +ℤ pos k))) }
{
    let Some(index) = low.checked_add(k as i128) else {
        return Err(NoMemory);
    };
    further(alloc, path, Step::Element(index))
}

/// The path of the variable of this number.
fn field(alloc: Global, path: &Path, k: usize) -> Result<Path, NoMemory>
    ensures { IfOk result (λ longer. longer ≡ plain.further path.now (Step.Field k)) }
{
    let Ok(number) = u32::try_from(k) else {
        return Err(NoMemory);
    };
    further(alloc, path, Step::Field(number))
}

/// Adds the numbers of a place of this type, to a depth.
#[cycle(numbers)]
fn push_type(
    alloc: Global,
    members: &Members<'_>,
    depth: u32,
    kind: &StType,
    given: Option<&Init<Note>>,
    path: &Path,
    out: &mut Vec<(Path, i128)>,
) -> Result<(), NoMemory>
    ensures { OnOk result ((p : PlainProgram) → tables.Holds p members.now → out.new.items ≡ out.old.items ++ numbers.type_numbers p depth path.now kind.now (option_map (λ i. initial_of i.now) given.entry)) }
{
    match kind {
        StType::Elementary(_) => push_number(alloc, given, path, out),
        StType::Enumeration(_) => push_number(alloc, given, path, out),
        StType::Reference(_) => Ok(()),
        StType::Interface(_) => Ok(()),
        StType::Array(low, high, of) => {
            if depth == 0 {
                return Ok(());
            }
            push_array(
                alloc,
                members,
                depth - 1,
                of.get(),
                low,
                high,
                given,
                path,
                out,
            )
        }
        StType::Structure(n) => {
            if depth == 0 {
                return Ok(());
            }
            let fields = members.structures.get(*n as usize);
            push_variables(
                alloc,
                members,
                depth - 1,
                fields,
                fields_given(given),
                path,
                out,
            )
        }
        StType::Instance(c) => {
            if depth == 0 {
                return Ok(());
            }
            let variables = members.classes.get(*c as usize);
            push_variables(
                alloc,
                members,
                depth - 1,
                variables,
                fields_given(given),
                path,
                out,
            )
        }
    }
}

/// Adds the numbers of the elements of an array.
#[cycle(numbers)]
fn push_array(
    alloc: Global,
    members: &Members<'_>,
    depth: u32,
    of: &StType,
    low: &i128,
    high: &i128,
    given: Option<&Init<Note>>,
    path: &Path,
    out: &mut Vec<(Path, i128)>,
) -> Result<(), NoMemory>
    ensures { OnOk result ((p : PlainProgram) → tables.Holds p members.now → out.new.items ≡ out.old.items ++ numbers.element_numbers (numbers.type_numbers p depth) path.now low.now of.now (take (extent low.now high.now) (words.list_given (option_map (λ i. initial_of i.now) given.entry))) 0 (extent low.now high.now)) }
{
    let Some(end) = count(*low, *high) else {
        return Err(NoMemory);
    };
    let givens = elements_given(alloc, given, end)?;
    for k in 0..end {
        let place = element(alloc, path, low, k)?;
        let given = given_at(&givens, k);
        push_type(alloc, members, depth, of, given, &place, out)?;
    }
    Ok(())
}

/// Adds the numbers of variables, where there are any.
#[cycle(numbers)]
fn push_variables(
    alloc: Global,
    members: &Members<'_>,
    depth: u32,
    variables: Option<&Items<Variable<'_>>>,
    inits: &[FieldInit<Note>],
    path: &Path,
    out: &mut Vec<(Path, i128)>,
) -> Result<(), NoMemory>
    ensures { OnOk result ((p : PlainProgram) → tables.Holds p members.now → out.new.items ≡ out.old.items ++ numbers.variable_numbers (numbers.type_numbers p depth) path.now 0 (variables_of (tables.items_at (option_map (λ vs. vs.now) variables.entry))) (fields_of inits.now)) }
{
    let Some(variables) = variables else {
        return Ok(());
    };
    for (k, variable) in variables.as_slice().iter().enumerate() {
        let place = field(alloc, path, k)?;
        let given = match given_for(variable.name, inits) {
            Some(init) => Some(init),
            None => variable.initial,
        };
        push_type(alloc, members, depth, variable.kind, given, &place, out)?;
    }
    Ok(())
}

/// The numbers with which a region begins, each with its path: those of elementary types and of enumerations, in order of
/// declaration and elements by rising index. It speaks of a region whose type unfolds, as each does of a program that is
/// accepted; a region that is not there has none.
pub fn initial(alloc: Global, p: &Program, region: u32) -> Result<Vec<(Path, i128)>, NoMemory>
    ensures numbers { IfOk result (λ all. (sh : Shape) → region_shape (program_of p.now) region ≡ Some sh → all.items ≡ plain.initial_numbers (program_of p.now) region) }
    ensures nothing { IfOk result (λ all. slice_get (program_of p.now).regions region ≡ None → all.items ≡ []) }
{
    let mut out = Vec::new(alloc);
    let Some(decl) = p.regions.get(region as usize) else {
        return Ok(out);
    };
    let members = members_of(alloc, p)?;
    let path = Path {
        region,
        steps: Steps::new(alloc),
    };
    let given = decl.initial.as_ref();
    push_type(alloc, &members, DEPTH, &decl.kind, given, &path, &mut out)?;
    Ok(out)
}
