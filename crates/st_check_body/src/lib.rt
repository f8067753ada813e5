//! The rules of statements: in one walk over a body the least rule that it breaks, and its typed trees (IEC 61131-3:2013, 7.3.3).
#![tactic(auto)]

mod body;
pub mod st_body_parts;

pub use body::check_body;
pub use st_body_parts::{
    CheckedBranch, CheckedBranches, CheckedCase, CheckedCases, CheckedControl, CheckedEnd,
    CheckedLabel, CheckedLabels, CheckedOtherwise, CheckedStatement, CheckedStatements,
    CheckedStep, branch_of, case_branch_of, case_of, check_assign, check_attempt, check_call,
    check_choice, check_condition, check_control, check_labels, choice_asked, continue_of, else_of,
    empty_of, exit_of, for_of, if_of, no_branch, no_case, no_else, no_statement, repeat_of,
    return_of, while_of, with_branch, with_case, with_statement,
};
