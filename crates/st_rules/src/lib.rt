//! The rules of the language, as definitions: which declaration a name means, what conforms to what, signatures, and which rules a
//! declaration breaks (IEC 61131-3:2013, 6.5 and 6.6). The checker, its tables and the meaning of programs stand on these words.
#![tactic(auto)]

mod asked;
mod copies;
mod faults;
mod ids;
mod laws;
mod methods;
mod modifiers;
mod names;
mod noted;
mod rows;
mod signature;
mod sorts;
mod widening;

pub use asked::{Asked, asked_again};
pub use copies::{copied, copied_text, texts};
pub use faults::{at, earlier, when};
pub use ids::{MethodId, PrototypeId};
pub use laws::{class_laws, conformance_laws, fault_laws, interface_laws, signature_laws};
pub use methods::{has_in_outs, has_statements};
pub use modifiers::{
    Access, is_abstract, is_constant, is_final, is_override, method_access, written_access,
};
pub use names::{
    DeclaredClass, DeclaredField, DeclaredGlobal, DeclaredNames, DeclaredRoutine, DeclaredType,
    DeclaredVariable, TypeParts,
};
pub use noted::told;
pub use rows::row_laws;
pub use signature::{
    Parameter, ResultType, Signature, Signatures, differs_from_hook, is_hook, same_signature,
};
pub use sorts::{is_body_sort, is_external, is_instance_sort, is_parameter_sort};
pub use widening::widening_laws;
