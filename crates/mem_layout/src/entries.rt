//! Structures and classes laid out, field by field.

ghost use Rattle.std.specs.Prelude.{◌≡◌, ◌+◌, ◌<◌, ℕ, Some, IfSome, IsSome, IfOk};
ghost use Rattle.st_values.specs.Program.{Program, Variable as PlainVariable};
ghost use Rattle.st_values.specs.Shape.{Shape, Fields, no_fields, field_then, fields_by, shape_within};
ghost use Rattle.program_tables.specs.st_initial.Variables.{variables_of};
ghost use Rattle.mem_layout.specs.store_bytes.Place.{gap, alignment, size, ending};
ghost use Rattle.mem_layout.specs.store_bytes.PlaceLaws.{joined};
ghost use Rattle.mem_layout.specs.Layout.{IsSmall, EachIsSmall};
ghost use Rattle.mem_layout.specs.Private.Table.{AreTables, Reach, start, wide};
ghost use Rattle.mem_layout.specs.Private.Entry.{IsLaid, IsFinished};

use crate::sizes::{Entry, Field, Measure, Tables, padded, size_of};
use plc_text::{Items, NoMemory};
use program_tables::Variable;
use st_types::StType;
use std::alloc::Global;

/// The fields that are laid out so far: where they end, and the greatest of their alignments.
#[derive(Drop)]
pub struct Laid {
    fields: Items<Field>,
    end: u32,
    greatest: u32,
}

/// No field yet. An instance begins with the number of its class.
fn begun(alloc: Global, class: bool) -> Laid
    ensures { IsLaid (start class) no_fields result }
{
    Laid {
        fields: Items::new(alloc),
        end: if class { 8 } else { 0 },
        greatest: 1,
    }
}

/// A field more, if its type is laid out and there is room.
fn with_field(
    alloc: Global,
    laid: Laid,
    tables: &Tables,
    kind: &StType,
) -> Result<Option<Laid>, NoMemory>
    ensures sound { (p : Program) (n : ℕ) (sh : Shape) (off : ℕ) (fs : Fields) (v : PlainVariable) → AreTables p tables.now → shape_within p n kind.now ≡ Some sh → v.kind ≡ kind.now → IsLaid off fs laid → IfOk result (λ o. IfSome o (λ l. IsLaid off (joined fs (field_then v sh no_fields)) l)) }
    ensures complete { (p : Program) (n : ℕ) (sh : Shape) (off : ℕ) (fs : Fields) → AreTables p tables.now → Reach p n tables.now → shape_within p n kind.now ≡ Some sh → IsSmall sh → IsLaid off fs laid → ending off fs + gap (alignment sh) (ending off fs) + size sh < 4294967296 → IfOk result (λ o. IsSome o) }
{
    let Some(measure) = size_of(tables, kind) else {
        return Ok(None);
    };
    let Some(offset) = padded(measure.alignment, laid.end) else {
        return Ok(None);
    };
    let Some(end) = offset.checked_add(measure.size) else {
        return Ok(None);
    };
    let Laid {
        mut fields,
        end: _,
        greatest,
    } = laid;
    let kind = kind.copy(alloc)?;
    fields.push(Field { offset, kind })?;
    let greatest = greatest.max(measure.alignment);
    Ok(Some(Laid {
        fields,
        end,
        greatest,
    }))
}

/// The fields, rounded up to what they are aligned to.
fn finished(laid: Laid, class: bool) -> Option<Entry>
    ensures sound { (fs : Fields) → IsLaid (start class) fs laid → IfSome result (λ e. IsFinished class fs e) }
    ensures complete { (fs : Fields) → IsLaid (start class) fs laid → ending (start class) fs + gap (wide class fs) (ending (start class) fs) < 4294967296 → IsSome result }
{
    let alignment = if class { 8 } else { laid.greatest };
    let size = padded(alignment, laid.end)?;
    Some(Entry {
        fields: laid.fields,
        measure: Measure { size, alignment },
    })
}

/// The entry of a structure or a class with these variables, if what they are made of is laid out and they are not too large.
pub fn laid_out(
    alloc: Global,
    tables: &Tables,
    class: bool,
    variables: &[Variable<'_>],
) -> Result<Option<Entry>, NoMemory>
    ensures sound { (p : Program) (n : ℕ) (fs : Fields) → AreTables p tables.now → fields_by (shape_within p n) (variables_of variables.now) ≡ Some fs → IfOk result (λ o. IfSome o (λ e. IsFinished class fs e)) }
    ensures complete { (p : Program) (n : ℕ) (fs : Fields) → AreTables p tables.now → Reach p n tables.now → fields_by (shape_within p n) (variables_of variables.now) ≡ Some fs → EachIsSmall fs → ending (start class) fs + gap (wide class fs) (ending (start class) fs) < 4294967296 → IfOk result (λ o. IsSome o) }
{
    let mut laid = begun(alloc, class);
    for variable in variables {
        match with_field(alloc, laid, tables, variable.kind)? {
            Some(next) => laid = next,
            None => return Ok(None),
        }
    }
    Ok(finished(laid, class))
}
