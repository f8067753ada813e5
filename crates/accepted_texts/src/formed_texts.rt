//! What every source that is read gives of its unit, with the prelude before it: it is formed, and where it breaks no rule all is told
//! (IEC 61131-3:2013, Annex A and 6.4).

mod formed;

pub use formed::formed_text_laws;
