//! Which rules functions, methods, methods of interfaces and programs break.
#![tactic(auto)]

pub mod depth_rules;
pub mod function_rules;
pub mod method_rules;
pub mod routine_rules;

pub use depth_rules::{
    body_depth_fault, items_depth_fault, kept_depth_fault, result_depth_fault, type_depth_fault,
};
pub use function_rules::{
    CheckedFunction, CheckedProgram, check_function, check_program, parts_of,
};
pub use method_rules::{CheckedMethod, CheckedPrototype, check_method, check_prototype};
pub use routine_rules::{
    CheckedRoutine, CheckedVariables, FoundBody, UnitParts, body_found, check_routine,
    check_variables,
};
