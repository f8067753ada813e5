//! The signatures of a unit's methods, with numbers for what initial values are worth, and the rules of classes by them
//! (IEC 61131-3:2013, 6.6.5 and 6.6.6).

mod signatures;

pub use signatures::NumberedSignatures;
