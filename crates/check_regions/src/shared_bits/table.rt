//! Marks one by one.

ghost use Rattle.std.specs.Prelude.{◌≡◌, ◌≤◌, ◌+◌, ◌||◌, ◌∷◌, [], ℕ, length, IfOk};
ghost use Rattle.check_regions.specs.shared_bits.Taken.{marked, is_between};
ghost use Rattle.check_regions.specs.shared_bits.Private.Spans.{any_from, Marks, TakesSpans};

use crate::shared_bits::span::Span;
use plc_text::NoMemory;
use std::alloc::Global;

fn any_taken(table: &[bool], start: usize, width: usize) -> bool
    requires { start + width ≤ length table.now }
    ensures { result ≡ any_from start width (marked table.now) }
{
    for k in start..start + width {
        if table[k] {
            return true;
        }
    }
    false
}

fn fill(table: &mut Vec<bool>, start: usize, width: usize)
    requires { start + width ≤ length table.old.items }
    ensures long { length table.new.items ≡ length table.old.items }
    ensures each { (j : ℕ) → marked table.new.items j ≡ (marked table.old.items j || is_between start width j) }
{
    for k in start..start + width {
        table[k] = true;
    }
}

fn either(a: bool, b: bool) -> bool
    ensures { result ≡ (a || b) }
{
    a || b
}

/// Takes the marks; whether one was taken, or was so before.
pub fn take_span(table: &mut Vec<bool>, shared: bool, span: Span) -> bool
    requires { span.start + span.width ≤ length table.old.items }
    ensures long { length table.new.items ≡ length table.old.items }
    ensures takes { TakesSpans table.old.items table.new.items shared result (span ∷ []) }
{
    let taken = any_taken(table, span.start, span.width);
    fill(table, span.start, span.width);
    either(shared, taken)
}

/// So many marks, of which none is set.
#[tactic(auto, using(crate::proofs::shared_bits::BitLaws::none_marks))]
pub fn none_taken(alloc: Global, bits: usize) -> Result<Vec<bool>, NoMemory>
    ensures long { IfOk result (λ t. length t.items ≡ bits) }
    ensures marks { IfOk result (λ t. Marks t.items []) }
{
    Ok(vec![in alloc; false; bits]?)
}
