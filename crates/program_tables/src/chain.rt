//! The chain of a class.

ghost use Rattle.std.specs.Prelude.{◌≡◌, ◌+◌, [], Some, length, IfOk};
ghost use Rattle.st_rules.specs.Chains.{climb, is_among};
ghost use Rattle.st_rules.specs.Upward.{base_in};

use crate::climb::base_of;
use plc_text::NoMemory;
use std::alloc::Global;

/// Whether the class is among these.
fn is_held(class: u32, classes: &[u32]) -> bool
    ensures { result ≡ is_among class classes.now }
{
    classes.iter().any(|c| class == *c)
}

/// The class, its base and so on; it stops before a class that it has already.
#[tactic(auto, using(crate::proofs::ChainLaws::climb_start, crate::proofs::ChainLaws::climb_end))]
pub fn chain_of(alloc: Global, bases: &[Option<u32>], class: u32) -> Result<Vec<u32>, NoMemory>
    ensures { IfOk result (λ chain. chain.items ≡ climb (base_in bases.now) (length bases.now + 1) [] (Some class)) }
{
    let mut held = Vec::new(alloc);
    let mut next = Some(class);
    for _step in 0..bases.len() + 1 {
        let c = match next {
            Some(c) => c,
            None => return Ok(held),
        };
        if is_held(c, &held) {
            return Ok(held);
        }
        held.push(c)?;
        next = base_of(bases, c);
    }
    Ok(held)
}
