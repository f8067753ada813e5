//! What is found out about statements and their parts. A typed tree counts where no rule is broken.

ghost use Rattle.std.specs.Prelude.{◌≡◌};
ghost use Rattle.st_tree.specs.declared.statement.Stmt.TheVariants as statement;

use plc_text::{Code, Items, Text};
use st_tree::{Branch, Case, Expr, Label, LabelEnd, Note, Otherwise, Stmt};
use st_types::StType;

/// A statement: the least rule that it breaks, and its typed tree.
pub struct CheckedStatement {
    pub least: Option<(Code, u32)>,
    pub statement: Stmt<Note>,
}

// By hand, so that a drop is one call: a derived one is written out wherever a `?` may need it.
impl Drop for CheckedStatement {
    fn drop(self) {
        drop(self.into_statement());
    }
}

impl CheckedStatement {
    /// The typed tree alone.
    pub fn into_statement(self) -> Stmt<Note>
        ensures { result ≡ self.statement }
    {
        let CheckedStatement {
            least: _,
            statement,
        } = self;
        statement
    }
}

/// Statements in a row.
pub struct CheckedStatements {
    pub least: Option<(Code, u32)>,
    pub statements: Items<Stmt<Note>>,
}

impl Drop for CheckedStatements {
    fn drop(self) {
        drop(self.into_statements());
    }
}

impl CheckedStatements {
    /// The typed trees alone.
    pub fn into_statements(self) -> Items<Stmt<Note>>
        ensures { result ≡ self.statements }
    {
        let CheckedStatements {
            least: _,
            statements,
        } = self;
        statements
    }
}

/// A branch of an IF.
pub struct CheckedBranch {
    pub least: Option<(Code, u32)>,
    pub branch: Branch<Note>,
}

impl Drop for CheckedBranch {
    fn drop(self) {
        drop(self.into_branch());
    }
}

impl CheckedBranch {
    /// The typed tree alone.
    pub fn into_branch(self) -> Branch<Note>
        ensures { result ≡ self.branch }
    {
        let CheckedBranch { least: _, branch } = self;
        branch
    }
}

/// The branches of an IF.
pub struct CheckedBranches {
    pub least: Option<(Code, u32)>,
    pub branches: Items<Branch<Note>>,
}

impl Drop for CheckedBranches {
    fn drop(self) {
        drop(self.into_branches());
    }
}

impl CheckedBranches {
    /// The typed trees alone.
    pub fn into_branches(self) -> Items<Branch<Note>>
        ensures { result ≡ self.branches }
    {
        let CheckedBranches { least: _, branches } = self;
        branches
    }
}

/// A case of a CASE.
pub struct CheckedCase {
    pub least: Option<(Code, u32)>,
    pub case: Case<Note>,
}

impl Drop for CheckedCase {
    fn drop(self) {
        drop(self.into_case());
    }
}

impl CheckedCase {
    /// The typed tree alone.
    pub fn into_case(self) -> Case<Note>
        ensures { result ≡ self.case }
    {
        let CheckedCase { least: _, case } = self;
        case
    }
}

/// The cases of a CASE.
pub struct CheckedCases {
    pub least: Option<(Code, u32)>,
    pub cases: Items<Case<Note>>,
}

impl Drop for CheckedCases {
    fn drop(self) {
        drop(self.into_cases());
    }
}

impl CheckedCases {
    /// The typed trees alone.
    pub fn into_cases(self) -> Items<Case<Note>>
        ensures { result ≡ self.cases }
    {
        let CheckedCases { least: _, cases } = self;
        cases
    }
}

/// What stands behind ELSE, where there is one.
#[derive(Drop)]
pub struct CheckedOtherwise {
    pub least: Option<(Code, u32)>,
    pub otherwise: Otherwise<Note>,
}

/// An end of a label, with its type.
pub struct CheckedEnd {
    pub told: Option<StType>,
    pub least: Option<(Code, u32)>,
    pub end: LabelEnd<Note>,
}

impl Drop for CheckedEnd {
    fn drop(self) {
        let CheckedEnd {
            told,
            least: _,
            end,
        } = self;
        drop(told);
        drop(end);
    }
}

impl CheckedEnd {
    /// The typed tree alone.
    pub fn into_end(self) -> LabelEnd<Note>
        ensures { result ≡ self.end }
    {
        let CheckedEnd {
            told,
            least: _,
            end,
        } = self;
        drop(told);
        end
    }
}

/// A label of a CASE.
pub struct CheckedLabel {
    pub least: Option<(Code, u32)>,
    pub label: Label<Note>,
}

impl Drop for CheckedLabel {
    fn drop(self) {
        drop(self.into_label());
    }
}

impl CheckedLabel {
    /// The typed tree alone.
    pub fn into_label(self) -> Label<Note>
        ensures { result ≡ self.label }
    {
        let CheckedLabel { least: _, label } = self;
        label
    }
}

/// The labels of a case.
#[derive(Drop)]
pub struct CheckedLabels {
    pub least: Option<(Code, u32)>,
    pub labels: Items<Label<Note>>,
}

/// The step of a FOR, where there is one.
pub struct CheckedStep {
    pub least: Option<(Code, u32)>,
    pub step: Option<Expr<Note>>,
}

impl Drop for CheckedStep {
    fn drop(self) {
        drop(self.into_step());
    }
}

impl CheckedStep {
    /// The typed tree alone, where there is a step.
    pub fn into_step(self) -> Option<Expr<Note>>
        ensures { result ≡ self.step }
    {
        let CheckedStep { least: _, step } = self;
        step
    }
}

/// What stands before DO in a FOR: the note of the variable, its first and its last value, and the step.
pub struct CheckedControl {
    pub least: Option<(Code, u32)>,
    pub note: Note,
    pub from: Expr<Note>,
    pub to: Expr<Note>,
    pub by: Option<Expr<Note>>,
}

impl Drop for CheckedControl {
    fn drop(self) {
        let CheckedControl {
            least: _,
            note,
            from,
            to,
            by,
        } = self;
        drop(note);
        drop(from);
        drop(to);
        drop(by);
    }
}

impl CheckedControl {
    /// A FOR over this body, whose first word stands at this line.
    pub fn into_statement(self, line: u32, name: Text, body: Items<Stmt<Note>>) -> Stmt<Note>
        ensures { result ≡ statement.For line self.note name self.from self.to self.by body }
    {
        let CheckedControl {
            least: _,
            note,
            from,
            to,
            by,
        } = self;
        Stmt::For(line, note, name, from, to, by, body)
    }
}
