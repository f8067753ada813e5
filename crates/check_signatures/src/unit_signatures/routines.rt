//! The signature of a method, in the scope of its locals.

ghost use Rattle.std.specs.Prelude.{◌≡◌, [], IfOk};
ghost use Rattle.st_rules.specs.Signatures as signatures;
ghost use Rattle.check_signatures.specs.unit_signatures.Private.Parameters as words;
ghost use Rattle.check_signatures.specs.unit_signatures.Private.Routines.{TellsRoutine, TellsSignature};

use crate::unit_signatures::parameters::parameters;
use crate::unit_signatures::weighed::Weighed;
use default_values::worth_numbers::WorthNumbers;
use name_resolution::Scope;
use plc_text::NoMemory;
use st_rules::{ResultType, Signature};
use st_tree::{Name, Section, TypeSpec};
use std::alloc::Global;
use type_resolution::told_locals::Declaring;
use type_resolution::written_types::type_written;

fn result_in(
    alloc: Global,
    s: &Scope<'_>,
    written: &Option<TypeSpec<u32>>,
) -> Result<ResultType, NoMemory>
    ensures { IfOk result (λ r. r ≡ words.result_in s.now written.now) }
{
    match written {
        Some(spec) => {
            let kind = type_written(alloc, s, spec)?;
            Ok(ResultType::Written(kind))
        }
        None => Ok(ResultType::Nothing),
    }
}

/// A signature in a scope.
fn signature(
    alloc: Global,
    weighed: &Weighed<'_, '_>,
    table: &mut WorthNumbers,
    s: &Scope<'_>,
    written: &Option<TypeSpec<u32>>,
    sections: &[Section<u32>],
) -> Result<Signature<u32>, NoMemory>
    ensures { IfOk result (λ x. TellsSignature weighed.now table.old table.new s.now written.now sections.now x) }
{
    let outcome = result_in(alloc, s, written)?;
    let parameters = parameters(alloc, weighed, table, s, sections)?;
    Ok(Signature {
        result: outcome,
        parameters,
    })
}

/// The signature of a method of a class, or of an interface, in the scope of its locals.
pub fn routine(
    alloc: Global,
    weighed: &Weighed<'_, '_>,
    table: &mut WorthNumbers,
    class: Option<u32>,
    in_method: bool,
    name: &Name,
    written: &Option<TypeSpec<u32>>,
    sections: &[Section<u32>],
) -> Result<Signature<u32>, NoMemory>
    ensures { IfOk result (λ x. TellsRoutine weighed.now table.old table.new class in_method name.now written.now sections.now x) }
{
    let tables = weighed.tables;
    let of = Declaring::Routine(name, written, sections);
    let locals = tables.locals(alloc, class, in_method, &of)?;
    let s = tables.scope(alloc, class, in_method, locals.as_slice())?;
    let told = signature(alloc, weighed, table, &s, written, sections)?;
    Ok(told)
}
