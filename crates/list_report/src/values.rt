//! How many values a region has.

ghost use Rattle.std.specs.Prelude.{◌≡◌, ◌+◌, ◌*◌, IfOk};
ghost use Rattle.mem_layout.specs.loaded_meaning.Sized as sized;
ghost use Rattle.shape_trees.specs.Shape.{fields_of, shape_of};

use plc_text::NoMemory;
use shape_trees::{Field, Shape};

/// How many values a type unfolded has: numbers, references, and each instance as one more. None has more than 64 bits.
#[cycle(values)]
#[tactic(auto, using(shape_trees::specs::Shape::shape_views))]
pub fn value_count(shape: &Shape<'_>) -> Result<u64, NoMemory>
    ensures { IfOk result (λ n. n ≡ sized.values_of (shape_of shape.now)) }
{
    match shape {
        Shape::Elementary(_) => Ok(1),
        Shape::Enumeration(_, _) => Ok(1),
        Shape::Reference(_, _) => Ok(1),
        Shape::Interface(_, _) => Ok(1),
        Shape::Array(_, count, element) => {
            let each = value_count(element.get())?;
            product(*count as u64, each)
        }
        Shape::Structure(_, _, fields) => {
            let all = field_value_count(fields.as_slice())?;
            Ok(all.max(1))
        }
        Shape::Instance(_, _, fields) => {
            let all = field_value_count(fields.as_slice())?;
            sum(1, all)
        }
    }
}

fn product(a: u64, b: u64) -> Result<u64, NoMemory>
    ensures { IfOk result (λ n. n ≡ a * b) }
{
    match a.checked_mul(b) {
        Some(n) => Ok(n),
        None => Err(NoMemory),
    }
}

fn sum(a: u64, b: u64) -> Result<u64, NoMemory>
    ensures { IfOk result (λ n. n ≡ a + b) }
{
    match a.checked_add(b) {
        Some(n) => Ok(n),
        None => Err(NoMemory),
    }
}

/// How many values fields have.
#[cycle(values)]
#[tactic(auto, using(crate::proofs::ValueLaws::values_end))]
fn field_value_count(fields: &[Field<'_>]) -> Result<u64, NoMemory>
    ensures { IfOk result (λ n. n ≡ sized.all_values_of (fields_of fields.now)) }
{
    let mut all: u64 = 0;
    for field in fields {
        let one = value_count(&field.shape)?;
        all = sum(all, one)?;
    }
    Ok(all)
}
