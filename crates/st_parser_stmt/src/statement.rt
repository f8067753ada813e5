//! Statements, by one function for each rule.

ghost use Rattle.std.specs.Prelude.{◌≡◌, ◌<◌, ◌≢◌, [], length, IfOk, IfErr, true, false, Some};
ghost use Rattle.std.specs.Option.{option_map};
ghost use Rattle.st_tree.specs.declared.terminal.Terminal.TheVariants as x;
ghost use Rattle.st_tree.specs.Grammar as g;
ghost use Rattle.st_tree.specs.Grammar.{◌⋆◌};
ghost use Rattle.st_tree.specs.Expression.{expression_of};
ghost use Rattle.st_tree.specs.Statement.{statement_of, statements_of, branches_of, cases_of, otherwise_of};
ghost use Rattle.st_parser_expr.specs.Private.Promises as e;
ghost use Rattle.st_parser_stmt.specs.Private.Promises as m;
ghost use Rattle.st_parser_stmt.specs.Private.Promises.{Parses, Fails, same};

use crate::label::{is_const, is_label, labels};
use crate::leaf::{
    arguments, eat, expression, expression_then, is_next, is_statement, place, sign, word,
};
use plc_text::{Items, Text};
use st_parser_expr::{Cursor, Held, Stop};
use st_tree::{Branch, Case, Expr, Otherwise, Stmt, Terminal};
use std::alloc::Global;

/// An assignment or a call.
fn simple(alloc: Global, tokens: &mut Cursor<'_, '_>) -> Result<Stmt<u32>, Stop>
    requires { e.is_root (e.next_terminal tokens.old) ≡ true }
    ensures ok { IfOk result (λ s. Parses (g.statement (statement_of s)) m.for_statement same tokens.old tokens.new) }
    ensures err { IfErr result (Fails m.for_statement tokens.old) }
{
    let line = tokens.line();
    let place = place(alloc, tokens)?;
    let place = Held::new(place);
    match tokens.peek() {
        Some(Terminal::Assign) => {
            tokens.bump();
            let value = expression_then(alloc, tokens, Terminal::Semicolon)?;
            let place = place.into_inner();
            let value = value.into_inner();
            Ok(Stmt::Assign(line, line, place, value))
        }
        Some(Terminal::Attempt) => {
            tokens.bump();
            let value = expression_then(alloc, tokens, Terminal::Semicolon)?;
            let place = place.into_inner();
            let value = value.into_inner();
            Ok(Stmt::Attempt(line, line, place, value))
        }
        Some(Terminal::Open) => {
            tokens.bump();
            let arguments = arguments(alloc, tokens)?;
            sign(tokens, Terminal::Semicolon)?;
            let place = place.into_inner();
            Ok(Stmt::Call(line, line, place, arguments))
        }
        _ => Err(Stop::Left(tokens.left())),
    }
}

/// What stands between FOR and the statements.
#[derive(Drop)]
struct Control {
    note: u32,
    name: Text,
    from: Held<Expr<u32>>,
    to: Held<Expr<u32>>,
    by: Held<Option<Expr<u32>>>,
}

fn step(alloc: Global, tokens: &mut Cursor<'_, '_>) -> Result<Option<Expr<u32>>, Stop>
    ensures ok { IfOk result (λ by. Parses (g.step_by (option_map expression_of by) ⋆ g.sign x.Do) m.for_step m.for_turns tokens.old tokens.new) }
    ensures err { IfErr result (Fails m.for_step tokens.old) }
{
    if eat(tokens, Terminal::By) {
        let by = expression_then(alloc, tokens, Terminal::Do)?;
        let by = by.into_inner();
        Ok(Some(by))
    } else if eat(tokens, Terminal::Do) {
        Ok(None)
    } else {
        Err(Stop::Left(tokens.left()))
    }
}

fn heading(alloc: Global, tokens: &mut Cursor<'_, '_>) -> Result<Control, Stop>
    ensures ok { IfOk result (λ c. Parses (m.Controlled c) m.for_control m.for_turns tokens.old tokens.new) }
    ensures err { IfErr result (Fails m.for_control tokens.old) }
{
    let note = tokens.line();
    let name = word(alloc, tokens)?;
    sign(tokens, Terminal::Assign)?;
    let from = expression_then(alloc, tokens, Terminal::To)?;
    let to = expression(alloc, tokens)?;
    let to = Held::new(to);
    let by = step(alloc, tokens)?;
    let by = Held::new(by);
    Ok(Control {
        note,
        name,
        from,
        to,
        by,
    })
}

/// EXIT, CONTINUE or RETURN, and `;`.
fn jump(tokens: &mut Cursor<'_, '_>) -> Result<Stmt<u32>, Stop>
    requires { m.is_jump (e.next_terminal tokens.old) ≡ true }
    ensures ok { IfOk result (λ s. Parses (g.statement (statement_of s)) m.for_statement same tokens.old tokens.new) }
    ensures err { IfErr result (Fails m.for_statement tokens.old) }
{
    let line = tokens.line();
    if eat(tokens, Terminal::Exit) {
        sign(tokens, Terminal::Semicolon)?;
        return Ok(Stmt::Exit(line));
    }
    if eat(tokens, Terminal::Continue) {
        sign(tokens, Terminal::Semicolon)?;
        return Ok(Stmt::Continue(line));
    }
    if eat(tokens, Terminal::Return) {
        sign(tokens, Terminal::Semicolon)?;
        return Ok(Stmt::Return(line));
    }
    Err(Stop::Left(tokens.left()))
}

/// A statement without statements in it.
fn plain(alloc: Global, tokens: &mut Cursor<'_, '_>) -> Result<Stmt<u32>, Stop>
    requires { m.is_nested (e.next_terminal tokens.old) ≡ false }
    ensures ok { IfOk result (λ s. Parses (g.statement (statement_of s)) m.for_statement same tokens.old tokens.new) }
    ensures err { IfErr result (Fails m.for_statement tokens.old) }
{
    let line = tokens.line();
    match tokens.peek() {
        Some(Terminal::Semicolon) => {
            tokens.bump();
            Ok(Stmt::Empty(line))
        }
        Some(Terminal::Word) => simple(alloc, tokens),
        Some(Terminal::This) => simple(alloc, tokens),
        Some(Terminal::Super) => simple(alloc, tokens),
        Some(Terminal::Exit) => jump(tokens),
        Some(Terminal::Continue) => jump(tokens),
        Some(Terminal::Return) => jump(tokens),
        _ => Err(Stop::Left(tokens.left())),
    }
}

#[cycle(statement)]
pub fn statement(alloc: Global, tokens: &mut Cursor<'_, '_>) -> Result<Stmt<u32>, Stop>
    ensures ok { IfOk result (λ s. Parses (g.statement (statement_of s)) m.for_statement same tokens.old tokens.new) }
    ensures err { IfErr result (Fails m.for_statement tokens.old) }
{
    match tokens.peek() {
        Some(Terminal::If) => conditional(alloc, tokens),
        Some(Terminal::Case) => selection(alloc, tokens),
        Some(Terminal::For) => counting(alloc, tokens),
        Some(Terminal::While) => looping(alloc, tokens),
        Some(Terminal::Repeat) => repeating(alloc, tokens),
        _ => plain(alloc, tokens),
    }
}

#[cycle(statement)]
fn conditional(alloc: Global, tokens: &mut Cursor<'_, '_>) -> Result<Stmt<u32>, Stop>
    requires { e.next_terminal tokens.old ≡ Some x.If }
    ensures ok { IfOk result (λ s. Parses (g.statement (statement_of s)) m.for_statement same tokens.old tokens.new) }
    ensures err { IfErr result (Fails m.for_statement tokens.old) }
{
    let line = tokens.line();
    tokens.bump();
    let found = branches(alloc, tokens)?;
    let other = otherwise(alloc, tokens, Terminal::EndIf)?;
    Ok(Stmt::If(line, found, other))
}

/// The branches of an IF, from the first condition on.
#[cycle(statement)]
fn branches(alloc: Global, tokens: &mut Cursor<'_, '_>) -> Result<Items<Branch<u32>>, Stop>
    ensures ok { IfOk result (λ bs. Parses (g.first_branch (branches_of bs)) m.for_condition m.for_branch tokens.old tokens.new) }
    ensures ends { IfOk result (λ _. e.next_terminal tokens.new ≢ Some x.Elsif) }
    ensures err { IfErr result (Fails m.for_condition tokens.old) }
{
    let mut found = Items::new(alloc);
    loop {
        let condition = expression_then(alloc, tokens, Terminal::Then)?;
        let body = body(alloc, tokens)?;
        let condition = condition.into_inner();
        found.push(Branch { condition, body })?;
        if eat(tokens, Terminal::Elsif) {} else {
            return Ok(found);
        }
    }
}

/// ELSE with its statements, and the end of an IF or a CASE.
#[cycle(statement)]
fn otherwise(
    alloc: Global,
    tokens: &mut Cursor<'_, '_>,
    end: Terminal,
) -> Result<Otherwise<u32>, Stop>
    ensures ok { IfOk result (λ o. m.ReadsOtherwise (g.otherwise (otherwise_of o) ⋆ g.sign end) end tokens.old tokens.new) }
    ensures err { IfErr result (m.OtherwiseFails end tokens.old) }
{
    if eat(tokens, Terminal::Else) {
        Ok(Otherwise::Else(body_until(alloc, tokens, end)?))
    } else {
        sign(tokens, end)?;
        Ok(Otherwise::Nothing)
    }
}

#[cycle(statement)]
fn selection(alloc: Global, tokens: &mut Cursor<'_, '_>) -> Result<Stmt<u32>, Stop>
    requires { e.next_terminal tokens.old ≡ Some x.Case }
    ensures ok { IfOk result (λ s. Parses (g.statement (statement_of s)) m.for_statement same tokens.old tokens.new) }
    ensures err { IfErr result (Fails m.for_statement tokens.old) }
{
    let line = tokens.line();
    tokens.bump();
    let value = expression_then(alloc, tokens, Terminal::Of)?;
    let found = cases(alloc, tokens)?;
    let other = otherwise(alloc, tokens, Terminal::EndCase)?;
    let value = value.into_inner();
    Ok(Stmt::Case(line, value, found, other))
}

/// The branches of a CASE.
#[cycle(statement)]
fn cases(alloc: Global, tokens: &mut Cursor<'_, '_>) -> Result<Items<Case<u32>>, Stop>
    ensures ok { IfOk result (λ cs. Parses (g.cases (cases_of cs)) m.for_cases m.for_case_end tokens.old tokens.new) }
    ensures err { IfErr result (Fails m.for_cases tokens.old) }
{
    let mut found = Items::new(alloc);
    if is_const(tokens) {} else {
        return Ok(found);
    }
    loop {
        let labels = labels(alloc, tokens)?;
        let body = case_body(alloc, tokens)?;
        found.push(Case { labels, body })?;
        if is_label(tokens) {} else {
            return Ok(found);
        }
    }
}

/// The statements of a branch of a CASE.
#[cycle(statement)]
fn case_body(alloc: Global, tokens: &mut Cursor<'_, '_>) -> Result<Items<Stmt<u32>>, Stop>
    ensures ok { IfOk result (λ ss. Parses (g.body (statements_of ss)) m.for_case_body m.for_case_body tokens.old tokens.new) }
    ensures ends { IfOk result (λ _. m.Ends tokens.new) }
    ensures err { IfErr result (Fails m.for_case_body tokens.old) }
{
    let mut found = Items::new(alloc);
    while is_statement(tokens) {
        if is_label(tokens) {
            return Ok(found);
        }
        let one = statement(alloc, tokens)?;
        found.push(one)?;
    }
    Ok(found)
}

#[cycle(statement)]
fn counting(alloc: Global, tokens: &mut Cursor<'_, '_>) -> Result<Stmt<u32>, Stop>
    requires { e.next_terminal tokens.old ≡ Some x.For }
    ensures ok { IfOk result (λ s. Parses (g.statement (statement_of s)) m.for_statement same tokens.old tokens.new) }
    ensures err { IfErr result (Fails m.for_statement tokens.old) }
{
    let line = tokens.line();
    tokens.bump();
    let control = heading(alloc, tokens)?;
    let body = body_until(alloc, tokens, Terminal::EndFor)?;
    let Control {
        note,
        name,
        from,
        to,
        by,
    } = control;
    let from = from.into_inner();
    let to = to.into_inner();
    let by = by.into_inner();
    Ok(Stmt::For(line, note, name, from, to, by, body))
}

#[cycle(statement)]
fn looping(alloc: Global, tokens: &mut Cursor<'_, '_>) -> Result<Stmt<u32>, Stop>
    requires { e.next_terminal tokens.old ≡ Some x.While }
    ensures ok { IfOk result (λ s. Parses (g.statement (statement_of s)) m.for_statement same tokens.old tokens.new) }
    ensures err { IfErr result (Fails m.for_statement tokens.old) }
{
    let line = tokens.line();
    tokens.bump();
    let condition = expression_then(alloc, tokens, Terminal::Do)?;
    let body = body_until(alloc, tokens, Terminal::EndWhile)?;
    let condition = condition.into_inner();
    Ok(Stmt::While(line, condition, body))
}

#[cycle(statement)]
fn repeating(alloc: Global, tokens: &mut Cursor<'_, '_>) -> Result<Stmt<u32>, Stop>
    requires { e.next_terminal tokens.old ≡ Some x.Repeat }
    ensures ok { IfOk result (λ s. Parses (g.statement (statement_of s)) m.for_statement same tokens.old tokens.new) }
    ensures err { IfErr result (Fails m.for_statement tokens.old) }
{
    let line = tokens.line();
    tokens.bump();
    let body = body_until(alloc, tokens, Terminal::Until)?;
    let condition = expression_then(alloc, tokens, Terminal::EndRepeat)?;
    let condition = condition.into_inner();
    Ok(Stmt::Repeat(line, body, condition))
}

/// Statements as long as they come.
#[cycle(statement)]
fn body(alloc: Global, tokens: &mut Cursor<'_, '_>) -> Result<Items<Stmt<u32>>, Stop>
    ensures ok { IfOk result (λ ss. m.ReadsBody (g.body (statements_of ss)) tokens.old tokens.new) }
    ensures ends { IfOk result (λ _. m.starts_statement (e.next_terminal tokens.new) ≡ false) }
    ensures err { IfErr result (m.BodyFails tokens.old) }
{
    let mut found = Items::new(alloc);
    while is_statement(tokens) {
        let one = statement(alloc, tokens)?;
        found.push(one)?;
    }
    Ok(found)
}

/// Statements, and this terminal.
#[cycle(statement)]
pub fn body_until(
    alloc: Global,
    tokens: &mut Cursor<'_, '_>,
    end: Terminal,
) -> Result<Items<Stmt<u32>>, Stop>
    ensures ok { IfOk result (λ ss. m.ReadsUntil (g.body (statements_of ss) ⋆ g.sign end) end tokens.old tokens.new) }
    ensures err { IfErr result (m.UntilFails end tokens.old) }
{
    let found = body(alloc, tokens)?;
    sign(tokens, end)?;
    Ok(found)
}
