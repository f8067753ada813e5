//! What the fields of a line stand for: numbers, codes, kinds of faults and bytes.

ghost use Rattle.std.specs.Prelude.{◌≡◌, find};
ghost use Rattle.plc_text.specs.Numbers.{number_in};
ghost use Rattle.cycle_journal.specs.Private.Candidate.{Gives, code_in, fault_kind_in, hex_in, outputs_in, kind_in};

use crate::line_error::LineError;
use crate::outputs::Outputs;
use plc_text::{Code, FaultKind};

const CODES: [Code; 17] = [
    Code::E01,
    Code::E02,
    Code::E03,
    Code::E04,
    Code::E05,
    Code::E06,
    Code::E07,
    Code::E08,
    Code::E09,
    Code::E10,
    Code::E11,
    Code::E12,
    Code::E13,
    Code::E14,
    Code::E15,
    Code::E16,
    Code::E17,
];

const FAULT_KINDS: [FaultKind; 6] = [
    FaultKind::Divide,
    FaultKind::Index,
    FaultKind::Null,
    FaultKind::Step,
    FaultKind::Watchdog,
    FaultKind::Depth,
];

/// The number of 32 bits that the digits stand for.
pub fn number(field: &str) -> Result<u32, LineError>
    ensures { Gives result (number_in field.now) }
{
    match plc_text::number(field) {
        Some(number) => Ok(number),
        None => Err(LineError::Bad),
    }
}

#[tactic(auto, unfolding(crate::specs::Private::Candidate::code_in))]
fn code_named(field: &str) -> Option<Code>
    ensures { result ≡ code_in field.now }
{
    CODES.iter().copied().find(|code| code.name() == field)
}

pub fn code(field: &str) -> Result<Code, LineError>
    ensures { Gives result (code_in field.now) }
{
    match code_named(field) {
        Some(code) => Ok(code),
        None => Err(LineError::Bad),
    }
}

#[tactic(auto, unfolding(crate::specs::Private::Candidate::fault_kind_in))]
fn fault_kind_named(field: &str) -> Option<FaultKind>
    ensures { result ≡ fault_kind_in field.now }
{
    FAULT_KINDS
        .iter()
        .copied()
        .find(|kind| kind.name() == field)
}

pub fn fault_kind(field: &str) -> Result<FaultKind, LineError>
    ensures { Gives result (fault_kind_in field.now) }
{
    match fault_kind_named(field) {
        Some(kind) => Ok(kind),
        None => Err(LineError::Bad),
    }
}

/// The kind of fault, or none where no field is left.
#[tactic(auto, unfolding(crate::specs::Private::Candidate::kind_in))]
pub fn kind(text: &str) -> Result<Option<FaultKind>, LineError>
    ensures { Gives result (kind_in text.now) }
{
    if text.is_empty() {
        return Ok(None);
    }
    let kind = fault_kind(text)?;
    Ok(Some(kind))
}

/// The output bytes of their digits, or of a dash for none.
#[tactic(auto, unfolding(crate::specs::Private::Candidate::outputs_in))]
pub fn outputs(field: &str) -> Result<Outputs, LineError>
    ensures { Gives result (outputs_in field.now) }
{
    if field == "-" {
        Ok(Outputs::new())
    } else {
        hex(field)
    }
}

#[tactic(auto, unfolding(crate::specs::Private::Candidate::hex_in))]
fn hex(field: &str) -> Result<Outputs, LineError>
    ensures { Gives result (hex_in field.now) }
{
    match Outputs::from_hex(field) {
        Some(outputs) => Ok(outputs),
        None => Err(LineError::Bad),
    }
}
