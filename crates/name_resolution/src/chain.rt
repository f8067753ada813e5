//! The chain of a class.

ghost use Rattle.std.specs.Prelude.{◌≡◌, ℕ, ◌+◌, ◌||◌, nat_eq, [], Some, length, IfOk, OnOk};
ghost use Rattle.st_rules.specs.Chains.{climb};
ghost use Rattle.st_rules.specs.Upward.{base_in};
ghost use Rattle.name_resolution.specs.Private.Chain.{is_held};

use crate::climb::base_of;
use plc_text::NoMemory;
use std::alloc::Global;
use std::collections::HashMap;

/// Classes that are held.
pub type Held = HashMap<u32, u32>;

fn holds(held: &Held, class: u32) -> bool
    ensures { result ≡ is_held held.now class }
{
    held.get(&class).is_some()
}

fn hold(held: &mut Held, class: u32) -> Result<(), NoMemory>
    ensures { OnOk result ((c : ℕ) → is_held held.new c ≡ (nat_eq c class || is_held held.old c)) }
{
    held.insert(class, class)?;
    Ok(())
}

/// The class, its base and so on; it stops before a class that it has already.
pub fn chain_of(alloc: Global, bases: &[Option<u32>], class: u32) -> Result<Vec<u32>, NoMemory>
    ensures { IfOk result (λ chain. chain.items ≡ climb (base_in bases.now) (length bases.now + 1) [] (Some class)) }
{
    let mut held: Held = HashMap::new(alloc);
    let mut chain = Vec::new(alloc);
    let mut next = Some(class);
    let mut left = bases.len() + 1;
    'classes: while left > 0 {
        left -= 1;
        let at = match next {
            Some(at) => at,
            None => return Ok(chain),
        };
        if holds(&held, at) {
            return Ok(chain);
        }
        hold(&mut held, at)?;
        chain.push(at)?;
        next = base_of(bases, at);
    }
    Ok(chain)
}
