//! Why an expression is refused.

ghost use Rattle.std.specs.Prelude.{◌≡◌};
ghost use Rattle.st_check_expr.specs.declared.broken.Broken.TheVariants.{NoMemory as no_memory};

use plc_text::{Code, NoMemory};

/// The least rule that is broken, at its least line, or want of memory.
#[derive(Clone, Copy, Debug, PartialEq, Eq)]
pub enum Broken {
    Rule(Code, u32),
    NoMemory,
}

impl From<NoMemory> for Broken {
    ghost from_gives = { λ _ e. e ≡ no_memory };

    fn from(_want: NoMemory) -> Broken {
        Broken::NoMemory
    }
}
