//! Parts of statements: what is found out about a statement, from what is found out about the statements in it (IEC 61131-3:2013,
//! 7.3.3). Here nothing goes down into statements.

mod assignments;
mod choices;
mod counting;
mod found;
mod labels;
mod limits;
mod nodes;

pub use assignments::{check_assign, check_attempt, check_call};
pub use choices::{check_choice, check_condition, choice_asked};
pub use counting::check_control;
pub use found::{
    CheckedBranch, CheckedBranches, CheckedCase, CheckedCases, CheckedControl, CheckedEnd,
    CheckedLabel, CheckedLabels, CheckedOtherwise, CheckedStatement, CheckedStatements,
    CheckedStep,
};
pub use labels::check_labels;
pub use nodes::{
    branch_of, case_branch_of, case_of, continue_of, else_of, empty_of, exit_of, for_of, if_of,
    no_branch, no_case, no_else, no_statement, repeat_of, return_of, while_of, with_branch,
    with_case, with_statement,
};
