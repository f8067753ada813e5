//! The rules that a class breaks.

ghost use Rattle.std.specs.Prelude.{◌≡◌, ◌<◌, length, option_and_then, option_copied, slice_get};
ghost use Rattle.std.specs.Map.{keys_of};
ghost use Rattle.st_rules.specs.Faults.{earlier, least};
ghost use Rattle.st_rules.specs.Numbered.{passes_if_there};
ghost use Rattle.st_rules.specs.Classes.{method_id};
ghost use Rattle.st_rules.specs.Signatures.{differ, signature_of};
ghost use Rattle.class_tables.specs.Private.Chain.{base_in};
ghost use Rattle.class_tables.specs.Private.Absorb.{row_at};
ghost use Rattle.class_tables.specs.Private.Broken as broken;

use crate::chain::base;
use crate::found::has_above;
use crate::settle::Settled;
use class_rows::{ClassRow, MethodRow, base_fault, is_bad_method};
use plc_text::Code;
use st_names::Names;
use st_rules::{MethodId, Signature, Signatures, differs_from_hook, earlier, same_signature, when};

fn is_on_cycle(rows: &[ClassRow], settled: &Settled, class: u32) -> bool
    ensures { result ≡ broken.is_on_cycle rows.now settled.now class }
{
    match base(rows, class) {
        Some(base) => has_above(settled, base, class),
        None => false,
    }
}

fn has_final_base(rows: &[ClassRow], class: u32) -> bool
    ensures { result ≡ broken.has_final_base rows.now class }
{
    match base(rows, class) {
        Some(base) => match rows.get(base as usize) {
            Some(row) => row.is_final,
            None => false,
        },
        None => false,
    }
}

fn has_block_base(rows: &[ClassRow], class: u32) -> bool
    ensures { result ≡ broken.has_block_base rows.now class }
{
    match base(rows, class) {
        Some(base) => match rows.get(base as usize) {
            Some(row) => row.is_block,
            None => false,
        },
        None => false,
    }
}

/// The method that a class has from its base.
fn inherited(rows: &[ClassRow], settled: &Settled, class: u32, name: u32) -> Option<MethodId>
    ensures { result ≡ broken.inherited rows.now settled.now class name }
{
    let base = base(rows, class)?;
    let state = settled.states.get(base as usize)?;
    let entry = settled.store.entry(state.methods, name)?;
    Some(entry.id)
}

pub fn method_at(rows: &[ClassRow], id: MethodId) -> Option<MethodRow>
    ensures { result ≡ row_at rows.now id }
{
    match rows.get(id.class as usize) {
        Some(row) => row.methods.get(id.method as usize).copied(),
        None => None,
    }
}

fn overridden(rows: &[ClassRow], over: Option<MethodId>) -> Option<MethodRow>
    ensures { result ≡ option_and_then (row_at rows.now) over }
{
    match over {
        Some(id) => method_at(rows, id),
        None => None,
    }
}

fn signature<V>(signatures: &Signatures<V>, class: usize, method: usize) -> Option<&Signature<V>>
    ensures { option_copied result ≡ signature_of signatures.now (method_id class method) }
{
    match signatures.methods.get(class) {
        Some(methods) => methods.get(method),
        None => None,
    }
}

/// Whether the method that is overridden has another signature, as far as both can be told.
fn has_other_signature<V: PartialEq>(
    signatures: &Signatures<V>,
    class: u32,
    method: usize,
    over: Option<MethodId>,
) -> bool
    ensures { result ≡ differ V.eq (signature_of signatures.now (method_id class method)) (option_and_then (signature_of signatures.now) over) }
{
    let id = match over {
        Some(id) => id,
        None => return false,
    };
    let own = match signature(signatures, class as usize, method) {
        Some(own) => own,
        None => return false,
    };
    match signature(signatures, id.class as usize, id.method as usize) {
        Some(other) => !same_signature(own, other),
        None => false,
    }
}

/// Whether the name asks for another signature.
fn is_no_hook<V: PartialEq>(
    names: &Names<()>,
    signatures: &Signatures<V>,
    class: u32,
    method: usize,
    name: u32,
) -> bool
    ensures { result ≡ broken.is_no_hook V.eq signatures.now (method_id class method) (slice_get (keys_of names.now) name) }
{
    if name >= names.len() {
        return false;
    }
    match signature(signatures, class as usize, method) {
        Some(own) => differs_from_hook(names.key(name), own, &signatures.falsehood),
        None => false,
    }
}

fn is_bad<V: PartialEq>(
    names: &Names<()>,
    rows: &[ClassRow],
    settled: &Settled,
    signatures: &Signatures<V>,
    class: u32,
    in_abstract: bool,
    place: usize,
    method: &MethodRow,
) -> bool
    ensures { result ≡ broken.is_bad V.eq (keys_of names.now) rows.now settled.now signatures.now class in_abstract place method.now }
{
    let over = inherited(rows, settled, class, method.name);
    let other = has_other_signature(signatures, class, place, over);
    let no_hook = is_no_hook(names, signatures, class, place, method.name);
    is_bad_method(method, overridden(rows, over), other, no_hook, in_abstract)
}

/// What is found with what the method breaks.

fn with_method<V: PartialEq>(
    found: Option<(Code, u32)>,
    names: &Names<()>,
    rows: &[ClassRow],
    settled: &Settled,
    signatures: &Signatures<V>,
    class: u32,
    in_abstract: bool,
    place: usize,
    method: &MethodRow,
) -> Option<(Code, u32)>
    ensures { result ≡ earlier found (least (broken.method_faults V.eq (keys_of names.now) rows.now settled.now signatures.now class in_abstract place method.now)) }
{
    let is_bad = is_bad(
        names,
        rows,
        settled,
        signatures,
        class,
        in_abstract,
        place,
        method,
    );
    earlier(found, when(is_bad, Code::E12, method.line))
}

/// The least of the rules that the methods of a class break.
fn methods_fault<V: PartialEq>(
    names: &Names<()>,
    rows: &[ClassRow],
    settled: &Settled,
    signatures: &Signatures<V>,
    class: u32,
    row: &ClassRow,
) -> Option<(Code, u32)>
    ensures { result ≡ least (broken.methods_faults V.eq (keys_of names.now) rows.now settled.now signatures.now class row.now) }
{
    let mut found = None;
    for (place, method) in row.methods.as_slice().iter().enumerate() {
        found = with_method(
            found,
            names,
            rows,
            settled,
            signatures,
            class,
            row.is_abstract,
            place,
            method,
        );
    }
    found
}

/// The least of the rules that a class breaks.
#[tactic(auto, using(st_rules::proofs::FaultLaws::faults))]
pub fn class_fault<V: PartialEq>(
    names: &Names<()>,
    rows: &[ClassRow],
    settled: &Settled,
    signatures: &Signatures<V>,
    class: u32,
) -> Option<(Code, u32)>
    ensures { result ≡ least (broken.class_faults V.eq (keys_of names.now) rows.now settled.now signatures.now class) }
{
    let row = match rows.get(class as usize) {
        Some(row) => row,
        None => return None,
    };
    let of_base = base_fault(
        row,
        is_on_cycle(rows, settled, class),
        has_final_base(rows, class),
        has_block_base(rows, class),
    );
    earlier(
        of_base,
        methods_fault(names, rows, settled, signatures, class, row),
    )
}
