//! What a class's members are.

ghost use Rattle.std.specs.Prelude.{◌≡◌};
ghost use Rattle.std.specs.List.{list_any};
ghost use Rattle.st_rules.specs.ClassRules as rules;

use st_tree::{Member, SectionSort, Stmt};

fn is_statement<A>(stmt: &Stmt<A>) -> bool
    ensures { result ≡ rules.is_statement stmt.now }
{
    match stmt {
        Stmt::Empty(_) => false,
        Stmt::Assign(_, _, _, _) => true,
        Stmt::Attempt(_, _, _, _) => true,
        Stmt::Call(_, _, _, _) => true,
        Stmt::Exit(_) => true,
        Stmt::Continue(_) => true,
        Stmt::Return(_) => true,
        Stmt::If(_, _, _) => true,
        Stmt::Case(_, _, _, _) => true,
        Stmt::For(_, _, _, _, _, _, _) => true,
        Stmt::While(_, _, _) => true,
        Stmt::Repeat(_, _, _) => true,
    }
}

/// Whether there is a statement; a lone `;` is none.
pub fn has_statements<A>(body: &[Stmt<A>]) -> bool
    ensures { result ≡ list_any rules.is_statement body.now }
{
    for stmt in body {
        if is_statement(stmt) {
            return true;
        }
    }
    false
}

fn is_in_out_section<A>(member: &Member<A>) -> bool
    ensures { result ≡ rules.is_in_out_section member.now }
{
    match member {
        Member::Section(section) => matches!(section.sort, SectionSort::InOut),
        Member::Method(_) => false,
    }
}

/// Whether there is a section VAR_IN_OUT, be it empty.
pub fn has_in_outs<A>(members: &[Member<A>]) -> bool
    ensures { result ≡ list_any rules.is_in_out_section members.now }
{
    members.iter().any(|m| is_in_out_section(m))
}
