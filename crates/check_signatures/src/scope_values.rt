//! What constant expressions come to in a scope, where they stand as initial values (IEC 61131-3:2013, 6.5.1.4).

mod values;

pub use values::ScopeValues;
