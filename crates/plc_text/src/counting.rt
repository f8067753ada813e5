//! Numbers of things: those of 32 bits, and the next one.

ghost use Rattle.std.specs.Prelude.{◌≡◌, suc, IfOk};

use crate::memory::NoMemory;

/// The number in 32 bits.
pub fn narrowed(number: usize) -> Result<u32, NoMemory>
    ensures { IfOk result (λ n. n ≡ number) }
{
    match u32::try_from(number) {
        Ok(n) => Ok(n),
        Err(_) => Err(NoMemory),
    }
}

/// The next number.
pub fn one_more(number: u32) -> Result<u32, NoMemory>
    ensures { IfOk result (λ n. n ≡ suc number) }
{
    match number.checked_add(1) {
        Some(next) => Ok(next),
        None => Err(NoMemory),
    }
}
