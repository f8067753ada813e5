//! Types made of elementary kinds, declarations and arrays.

ghost use Rattle.std.specs.Prelude.{◌≡◌, ◌↔◌, IsTrue, IfOk};

use crate::elem::Elem;
use sqlite_items::Boxed;
use std::alloc::{AllocError, Global};

/// The type of a variable or an expression. A number is that of a declaration. Two types are one exactly where they
/// are equal as trees.
#[cycle(types)]
#[derive(Debug, Drop)]
pub enum StType {
    Elementary(Elem),
    Enumeration(u32),
    Structure(u32),
    /// The bounds, both included, and the type of the elements.
    Array(i128, i128, Boxed<StType>),
    Instance(u32),
    Reference(u32),
    Interface(u32),
}

impl StType {
    /// Whether both are one type.
    #[cycle(same)]
    pub fn is_same(&self, other: &StType) -> bool
        ensures { IsTrue result ↔ (self.now ≡ other.now) }
    {
        match (self, other) {
            (StType::Elementary(a), StType::Elementary(b)) => a == b,
            (StType::Enumeration(a), StType::Enumeration(b)) => a == b,
            (StType::Structure(a), StType::Structure(b)) => a == b,
            (StType::Array(low, high, of), StType::Array(other_low, other_high, other_of)) => {
                low == other_low && high == other_high && of.get().is_same(other_of.get())
            }
            (StType::Instance(a), StType::Instance(b)) => a == b,
            (StType::Reference(a), StType::Reference(b)) => a == b,
            (StType::Interface(a), StType::Interface(b)) => a == b,
            _ => false,
        }
    }

    /// The same type again.
    #[cycle(copy)]
    pub fn copy(&self, alloc: Global) -> Result<StType, AllocError>
        ensures { IfOk result (λ copy. copy ≡ self.now) }
    {
        match self {
            StType::Elementary(e) => Ok(StType::Elementary(*e)),
            StType::Enumeration(n) => Ok(StType::Enumeration(*n)),
            StType::Structure(n) => Ok(StType::Structure(*n)),
            StType::Array(low, high, of) => {
                let of = of.get().copy(alloc)?;
                Ok(StType::Array(*low, *high, Boxed::new(alloc, of)?))
            }
            StType::Instance(n) => Ok(StType::Instance(*n)),
            StType::Reference(n) => Ok(StType::Reference(*n)),
            StType::Interface(n) => Ok(StType::Interface(*n)),
        }
    }
}
