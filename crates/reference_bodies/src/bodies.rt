//! The walk over statements.

ghost use Rattle.std.specs.Prelude.{◌≡◌, option_map};
ghost use Rattle.st_tree.specs.Expression.{arguments_of, expression_of, place_of};
ghost use Rattle.st_tree.specs.Statement as tree;
ghost use Rattle.st_tree.specs.Statement.{branches_of, cases_of, otherwise_of, statement_of, statements_of};
ghost use Rattle.st_meaning.specs.Enter.{enter};
ghost use Rattle.st_meaning.specs.Loop as loops;
ghost use Rattle.st_meaning.specs.Operation.{elem_of, path_in};
ghost use Rattle.st_meaning.specs.Place.{named_spot};
ghost use Rattle.st_meaning.specs.Statement as words;
ghost use Rattle.st_values.specs.View.{program_of};
ghost use Rattle.run_state.specs.State.{Agrees, Keeps, Shows, base_of, state_of};
ghost use Rattle.value_trees.specs.Value.{value_of};
ghost use Rattle.reference_values.specs.Walks.{Walks};
ghost use Rattle.reference_bodies.specs.Flow.{flow_of};
ghost use Rattle.reference_bodies.specs.Private.Turns.{case_number, condition, counted, leaves, or_else, in_branch, in_case, is_within, limits, one_branch, one_case, one_turn, one_turn_until, tested};

use crate::counting::{add_step, begin, is_within};
use crate::flow::{Flow, end_of, ended, goes_on, is_end};
use crate::steps::{attempted, no_zero};
use call_frames::Given;
use plc_text::Series;
use program_tables::RoutineId;
use reference_values::Walk;
use run_state::{Frame, RunState, Stop, put, spend};
use run_steps::{elem_of, hold, is_true, number_in};
use st_tree::{Argument, Branch, Case, Expr, Note, Otherwise, Path, Place, Stmt};
use st_types::StType;
use value_trees::Value;

/// A walk over statements, by a walk over the expressions in them.
#[derive(Drop)]
pub struct Bodies<'p, F> {
    pub walk: Walk<'p, F>,
}

/// How far FOR counts, and in which steps.
#[derive(Clone, Copy)]
pub struct Limits {
    pub end: i128,
    pub step: i128,
}

/// A tick, and then out of the statements.
fn leave(m: &mut RunState, flow: Flow, line: u32) -> Result<Flow, Stop>
    ensures run { Shows flow_of result (leaves (flow_of flow) line (state_of m.old)) (state_of m.new) }
    ensures base { Keeps result (base_of m.old) (base_of m.new) }
{
    spend(m, line)?;
    Ok(flow)
}

impl<
    F: Fn(&mut RunState, RoutineId, Option<Path>, Series<Given>, u32) -> Result<Frame, Stop>,
> Bodies<'_, F> {
    /// Whether a condition holds.
    fn holds(&self, m: &mut RunState, e: &Expr<Note>, line: u32) -> Result<bool, Stop>
        requires { Walks self.now.walk.tables.now self.now.walk.routines.now self.now.walk.room (F.pre self.now.walk.enter) (F.post self.now.walk.enter) }
        ensures run { Agrees result (condition (program_of self.now.walk.tables.now) (enter (program_of self.now.walk.tables.now) self.now.walk.room) (expression_of e.now) line (state_of m.old)) (state_of m.new) }
        ensures base { Keeps result (base_of m.old) (base_of m.new) }
    {
        let v = self.walk.value(m, e, line)?;
        Ok(is_true(&v))
    }

    /// The step of FOR, 1 where none is written; 0 is a fault.
    fn step_value(&self, m: &mut RunState, by: &Option<Expr<Note>>, line: u32) -> Result<i128, Stop>
        requires { Walks self.now.walk.tables.now self.now.walk.routines.now self.now.walk.room (F.pre self.now.walk.enter) (F.post self.now.walk.enter) }
        ensures run { Agrees result (words.step_value (program_of self.now.walk.tables.now) (enter (program_of self.now.walk.tables.now) self.now.walk.room) (option_map expression_of by.now) line (state_of m.old)) (state_of m.new) }
        ensures base { Keeps result (base_of m.old) (base_of m.new) }
    {
        match by {
            Some(e) => {
                let v = self.walk.value(m, e, line)?;
                no_zero(m, number_in(&v), line)
            }
            None => Ok(1),
        }
    }

    /// A tick, and a number: the value behind CASE, or the first one of FOR.
    fn selected(&self, m: &mut RunState, e: &Expr<Note>, line: u32) -> Result<i128, Stop>
        requires { Walks self.now.walk.tables.now self.now.walk.routines.now self.now.walk.room (F.pre self.now.walk.enter) (F.post self.now.walk.enter) }
        ensures run { Agrees result (case_number (program_of self.now.walk.tables.now) (enter (program_of self.now.walk.tables.now) self.now.walk.room) (expression_of e.now) line (state_of m.old)) (state_of m.new) }
        ensures base { Keeps result (base_of m.old) (base_of m.new) }
    {
        spend(m, line)?;
        let v = self.walk.value(m, e, line)?;
        Ok(number_in(&v))
    }

    fn assign(
        &self,
        m: &mut RunState,
        a: &Note,
        place: &Place<Note>,
        e: &Expr<Note>,
        line: u32,
    ) -> Result<Flow, Stop>
        requires { Walks self.now.walk.tables.now self.now.walk.routines.now self.now.walk.room (F.pre self.now.walk.enter) (F.post self.now.walk.enter) }
        ensures run { Shows flow_of result (words.effect (program_of self.now.walk.tables.now) (enter (program_of self.now.walk.tables.now) self.now.walk.room) (tree.Assign line a.now (place_of place.now).0 (place_of place.now).1 (expression_of e.now)) line (state_of m.old)) (state_of m.new) }
        ensures base { Keeps result (base_of m.old) (base_of m.new) }
    {
        let _ = a;
        spend(m, line)?;
        let v = self.walk.value(m, e, line)?;
        let spot = self.walk.place(m, place, line)?;
        put(self.walk.alloc, m, &spot, v, line)?;
        Ok(Flow::GoesOn)
    }

    /// What `?=` gives.
    fn attempted_value(
        &self,
        m: &RunState,
        kind: &StType,
        v: &Value,
        line: u32,
    ) -> Result<Value, Stop>
        ensures { Shows value_of result (words.attempted (program_of self.now.walk.tables.now) (enter (program_of self.now.walk.tables.now) self.now.walk.room) kind.now (path_in (value_of v.now)) line (state_of m.now)) (state_of m.now) }
    {
        attempted(self.walk.alloc, self.walk.tables, m, kind, v, line)
    }

    fn attempt(
        &self,
        m: &mut RunState,
        a: &Note,
        place: &Place<Note>,
        e: &Expr<Note>,
        line: u32,
    ) -> Result<Flow, Stop>
        requires { Walks self.now.walk.tables.now self.now.walk.routines.now self.now.walk.room (F.pre self.now.walk.enter) (F.post self.now.walk.enter) }
        ensures run { Shows flow_of result (words.effect (program_of self.now.walk.tables.now) (enter (program_of self.now.walk.tables.now) self.now.walk.room) (tree.Attempt line a.now (place_of place.now).0 (place_of place.now).1 (expression_of e.now)) line (state_of m.old)) (state_of m.new) }
        ensures base { Keeps result (base_of m.old) (base_of m.new) }
    {
        spend(m, line)?;
        let v = self.walk.value(m, e, line)?;
        let w = self.attempted_value(m, &a.kind, &v, line)?;
        let spot = self.walk.place(m, place, line)?;
        put(self.walk.alloc, m, &spot, w, line)?;
        Ok(Flow::GoesOn)
    }

    fn call(
        &self,
        m: &mut RunState,
        a: &Note,
        place: &Place<Note>,
        arguments: &[Argument<Note>],
        line: u32,
    ) -> Result<Flow, Stop>
        requires { Walks self.now.walk.tables.now self.now.walk.routines.now self.now.walk.room (F.pre self.now.walk.enter) (F.post self.now.walk.enter) }
        ensures run { Shows flow_of result (words.effect (program_of self.now.walk.tables.now) (enter (program_of self.now.walk.tables.now) self.now.walk.room) (tree.Call line a.now (place_of place.now).0 (place_of place.now).1 (arguments_of arguments.now)) line (state_of m.old)) (state_of m.new) }
        ensures base { Keeps result (base_of m.old) (base_of m.new) }
    {
        let _ = a;
        spend(m, line)?;
        self.walk.call_effect(m, place, arguments, line)?;
        Ok(Flow::GoesOn)
    }

    /// The end and the step of FOR.
    fn limits(
        &self,
        m: &mut RunState,
        to: &Expr<Note>,
        by: &Option<Expr<Note>>,
        line: u32,
    ) -> Result<Limits, Stop>
        requires { Walks self.now.walk.tables.now self.now.walk.routines.now self.now.walk.room (F.pre self.now.walk.enter) (F.post self.now.walk.enter) }
        ensures run { Agrees result (limits (program_of self.now.walk.tables.now) (enter (program_of self.now.walk.tables.now) self.now.walk.room) (expression_of to.now) (option_map expression_of by.now) line (state_of m.old)) (state_of m.new) }
        ensures base { Keeps result (base_of m.old) (base_of m.new) }
    {
        let end = self.walk.value(m, to, line)?;
        let step = self.step_value(m, by, line)?;
        Ok(Limits {
            end: number_in(&end),
            step,
        })
    }

    /// What statements do, in order, up to one that leaves them.
    #[cycle(bodies)]
    #[tactic(auto, using(st_tree::specs::Statement::statement_views))]
    pub fn effects(&self, m: &mut RunState, body: &[Stmt<Note>], line: u32) -> Result<Flow, Stop>
        requires { Walks self.now.walk.tables.now self.now.walk.routines.now self.now.walk.room (F.pre self.now.walk.enter) (F.post self.now.walk.enter) }
        ensures run { Shows flow_of result (words.effects (program_of self.now.walk.tables.now) (enter (program_of self.now.walk.tables.now) self.now.walk.room) (statements_of body.now) line (state_of m.old)) (state_of m.new) }
        ensures base { Keeps result (base_of m.old) (base_of m.new) }
    {
        for statement in body {
            match self.effect(m, statement, line) {
                Ok(flow) => {
                    if !goes_on(flow) {
                        return Ok(flow);
                    }
                }
                Err(stop) => return Err(stop),
            }
        }
        Ok(Flow::GoesOn)
    }

    /// A tick, and then what the statement does; a lone `;` is no statement.
    #[cycle(bodies)]
    #[tactic(auto, using(st_tree::specs::Statement::statement_views, crate::proofs::ListLaws::if_by, crate::proofs::ListLaws::case_by, crate::proofs::ListLaws::for_by))]
    fn effect(&self, m: &mut RunState, statement: &Stmt<Note>, line: u32) -> Result<Flow, Stop>
        requires { Walks self.now.walk.tables.now self.now.walk.routines.now self.now.walk.room (F.pre self.now.walk.enter) (F.post self.now.walk.enter) }
        ensures run { Shows flow_of result (words.effect (program_of self.now.walk.tables.now) (enter (program_of self.now.walk.tables.now) self.now.walk.room) (statement_of statement.now) line (state_of m.old)) (state_of m.new) }
        ensures base { Keeps result (base_of m.old) (base_of m.new) }
    {
        match statement {
            Stmt::Empty(_) => Ok(Flow::GoesOn),
            Stmt::Assign(at, a, place, e) => self.assign(m, a, place, e, *at),
            Stmt::Attempt(at, a, place, e) => self.attempt(m, a, place, e, *at),
            Stmt::Call(at, a, place, arguments) => {
                self.call(m, a, place, arguments.as_slice(), *at)
            }
            Stmt::Exit(at) => leave(m, Flow::Exits, *at),
            Stmt::Continue(at) => leave(m, Flow::Continues, *at),
            Stmt::Return(at) => leave(m, Flow::Returns, *at),
            Stmt::If(at, branches, otherwise) => {
                spend(m, *at)?;
                let end = self.first_true(m, branches.as_slice(), *at)?;
                self.or_otherwise(m, otherwise, end, *at)
            }
            Stmt::Case(at, e, cases, otherwise) => {
                let z = self.selected(m, e, *at)?;
                let end = self.first_holding(m, cases.as_slice(), &z, *at)?;
                self.or_otherwise(m, otherwise, end, *at)
            }
            Stmt::For(at, a, _, from, to, by, body) => {
                let first = self.selected(m, from, *at)?;
                let limits = self.limits(m, to, by, *at)?;
                begin(self.walk.alloc, m, &a.target, &first, *at)?;
                self.count(m, body.as_slice(), a, &limits, *at)
            }
            Stmt::While(at, e, body) => {
                spend(m, *at)?;
                self.repeat_while(m, body.as_slice(), e, *at)
            }
            Stmt::Repeat(at, body, e) => {
                spend(m, *at)?;
                self.repeat_until(m, body.as_slice(), e, *at)
            }
        }
    }

    /// What the first branch does whose condition holds, if there is one.
    #[cycle(bodies)]
    fn first_true(
        &self,
        m: &mut RunState,
        branches: &[Branch<Note>],
        line: u32,
    ) -> Result<Option<Flow>, Stop>
        requires { Walks self.now.walk.tables.now self.now.walk.routines.now self.now.walk.room (F.pre self.now.walk.enter) (F.post self.now.walk.enter) }
        ensures run { Shows (option_map flow_of) result (in_branch (program_of self.now.walk.tables.now) (enter (program_of self.now.walk.tables.now) self.now.walk.room) (branches_of branches.now) line (state_of m.old)) (state_of m.new) }
        ensures base { Keeps result (base_of m.old) (base_of m.new) }
    {
        for branch in branches {
            match self.one_branch(m, branch, line) {
                Ok(end) => {
                    if is_end(end) {
                        return Ok(end);
                    }
                }
                Err(stop) => return Err(stop),
            }
        }
        Ok(None)
    }

    /// What a branch does, where its condition holds.
    #[cycle(bodies)]
    fn one_branch(
        &self,
        m: &mut RunState,
        branch: &Branch<Note>,
        line: u32,
    ) -> Result<Option<Flow>, Stop>
        requires { Walks self.now.walk.tables.now self.now.walk.routines.now self.now.walk.room (F.pre self.now.walk.enter) (F.post self.now.walk.enter) }
        ensures run { Shows (option_map flow_of) result (one_branch (program_of self.now.walk.tables.now) (enter (program_of self.now.walk.tables.now) self.now.walk.room) (expression_of branch.now.condition) (statements_of branch.now.body) line (state_of m.old)) (state_of m.new) }
        ensures base { Keeps result (base_of m.old) (base_of m.new) }
    {
        if self.holds(m, &branch.condition, line)? {
            let flow = self.effects(m, branch.body.as_slice(), line)?;
            return Ok(Some(flow));
        }
        Ok(None)
    }

    /// What the first case does that holds the value, if there is one.
    #[cycle(bodies)]
    fn first_holding(
        &self,
        m: &mut RunState,
        cases: &[Case<Note>],
        z: &i128,
        line: u32,
    ) -> Result<Option<Flow>, Stop>
        requires { Walks self.now.walk.tables.now self.now.walk.routines.now self.now.walk.room (F.pre self.now.walk.enter) (F.post self.now.walk.enter) }
        ensures run { Shows (option_map flow_of) result (in_case (program_of self.now.walk.tables.now) (enter (program_of self.now.walk.tables.now) self.now.walk.room) z.now (cases_of cases.now) line (state_of m.old)) (state_of m.new) }
        ensures base { Keeps result (base_of m.old) (base_of m.new) }
    {
        for case in cases {
            match self.case(m, case, z, line) {
                Ok(end) => {
                    if is_end(end) {
                        return Ok(end);
                    }
                }
                Err(stop) => return Err(stop),
            }
        }
        Ok(None)
    }

    /// What a case does, where it holds the value.
    #[cycle(bodies)]
    fn case(
        &self,
        m: &mut RunState,
        case: &Case<Note>,
        z: &i128,
        line: u32,
    ) -> Result<Option<Flow>, Stop>
        requires { Walks self.now.walk.tables.now self.now.walk.routines.now self.now.walk.room (F.pre self.now.walk.enter) (F.post self.now.walk.enter) }
        ensures run { Shows (option_map flow_of) result (one_case (program_of self.now.walk.tables.now) (enter (program_of self.now.walk.tables.now) self.now.walk.room) z.now case.now.labels (statements_of case.now.body) line (state_of m.old)) (state_of m.new) }
        ensures base { Keeps result (base_of m.old) (base_of m.new) }
    {
        if hold(case.labels.as_slice(), z) {
            let flow = self.effects(m, case.body.as_slice(), line)?;
            return Ok(Some(flow));
        }
        Ok(None)
    }

    /// What a branch did, or else what stands behind the branches.
    #[cycle(bodies)]
    #[tactic(auto, using(st_tree::specs::Statement::statement_views))]
    fn or_otherwise(
        &self,
        m: &mut RunState,
        otherwise: &Otherwise<Note>,
        end: Option<Flow>,
        line: u32,
    ) -> Result<Flow, Stop>
        requires { Walks self.now.walk.tables.now self.now.walk.routines.now self.now.walk.room (F.pre self.now.walk.enter) (F.post self.now.walk.enter) }
        ensures run { Shows flow_of result (or_else (words.otherwise_effect (program_of self.now.walk.tables.now) (enter (program_of self.now.walk.tables.now) self.now.walk.room) (otherwise_of otherwise.now)) (option_map flow_of end) line (state_of m.old)) (state_of m.new) }
        ensures base { Keeps result (base_of m.old) (base_of m.new) }
    {
        match end {
            Some(flow) => Ok(flow),
            None => match otherwise {
                Otherwise::Nothing => Ok(Flow::GoesOn),
                Otherwise::Else(body) => self.effects(m, body.as_slice(), line),
            },
        }
    }

    /// WHILE.
    #[cycle(bodies)]
    fn repeat_while(
        &self,
        m: &mut RunState,
        body: &[Stmt<Note>],
        e: &Expr<Note>,
        line: u32,
    ) -> Result<Flow, Stop>
        requires { Walks self.now.walk.tables.now self.now.walk.routines.now self.now.walk.room (F.pre self.now.walk.enter) (F.post self.now.walk.enter) }
        ensures run { Shows flow_of result (loops.loop (condition (program_of self.now.walk.tables.now) (enter (program_of self.now.walk.tables.now) self.now.walk.room) (expression_of e.now)) (words.effects (program_of self.now.walk.tables.now) (enter (program_of self.now.walk.tables.now) self.now.walk.room) (statements_of body.now)) line (state_of m.old)) (state_of m.new) }
        ensures base { Keeps result (base_of m.old) (base_of m.new) }
    {
        'turns: loop {
            match self.turn(m, body, e, line) {
                Ok(end) => {
                    if is_end(end) {
                        return Ok(ended(end));
                    }
                }
                Err(stop) => return Err(stop),
            }
        }
    }

    /// A turn of WHILE: a tick, the test, and where it holds the body.
    #[cycle(bodies)]
    fn turn(
        &self,
        m: &mut RunState,
        body: &[Stmt<Note>],
        e: &Expr<Note>,
        line: u32,
    ) -> Result<Option<Flow>, Stop>
        requires { Walks self.now.walk.tables.now self.now.walk.routines.now self.now.walk.room (F.pre self.now.walk.enter) (F.post self.now.walk.enter) }
        ensures run { Shows (option_map flow_of) result (one_turn (condition (program_of self.now.walk.tables.now) (enter (program_of self.now.walk.tables.now) self.now.walk.room) (expression_of e.now)) (words.effects (program_of self.now.walk.tables.now) (enter (program_of self.now.walk.tables.now) self.now.walk.room) (statements_of body.now)) line (state_of m.old)) (state_of m.new) }
        ensures base { Keeps result (base_of m.old) (base_of m.new) }
    {
        spend(m, line)?;
        if self.holds(m, e, line)? {
            let flow = self.effects(m, body, line)?;
            return Ok(end_of(flow));
        }
        Ok(Some(Flow::GoesOn))
    }

    /// REPEAT.
    #[cycle(bodies)]
    fn repeat_until(
        &self,
        m: &mut RunState,
        body: &[Stmt<Note>],
        e: &Expr<Note>,
        line: u32,
    ) -> Result<Flow, Stop>
        requires { Walks self.now.walk.tables.now self.now.walk.routines.now self.now.walk.room (F.pre self.now.walk.enter) (F.post self.now.walk.enter) }
        ensures run { Shows flow_of result (loops.loop_until (words.effects (program_of self.now.walk.tables.now) (enter (program_of self.now.walk.tables.now) self.now.walk.room) (statements_of body.now)) (condition (program_of self.now.walk.tables.now) (enter (program_of self.now.walk.tables.now) self.now.walk.room) (expression_of e.now)) line (state_of m.old)) (state_of m.new) }
        ensures base { Keeps result (base_of m.old) (base_of m.new) }
    {
        'turns: loop {
            match self.turn_until(m, body, e, line) {
                Ok(end) => {
                    if is_end(end) {
                        return Ok(ended(end));
                    }
                }
                Err(stop) => return Err(stop),
            }
        }
    }

    /// A turn of REPEAT: the body, and where nothing left it a tick and the test.
    #[cycle(bodies)]
    fn turn_until(
        &self,
        m: &mut RunState,
        body: &[Stmt<Note>],
        e: &Expr<Note>,
        line: u32,
    ) -> Result<Option<Flow>, Stop>
        requires { Walks self.now.walk.tables.now self.now.walk.routines.now self.now.walk.room (F.pre self.now.walk.enter) (F.post self.now.walk.enter) }
        ensures run { Shows (option_map flow_of) result (one_turn_until (words.effects (program_of self.now.walk.tables.now) (enter (program_of self.now.walk.tables.now) self.now.walk.room) (statements_of body.now)) (condition (program_of self.now.walk.tables.now) (enter (program_of self.now.walk.tables.now) self.now.walk.room) (expression_of e.now)) line (state_of m.old)) (state_of m.new) }
        ensures base { Keeps result (base_of m.old) (base_of m.new) }
    {
        let flow = self.effects(m, body, line)?;
        self.tested(m, e, end_of(flow), line)
    }

    /// FOR, where the variable has its first value.
    #[cycle(bodies)]
    fn count(
        &self,
        m: &mut RunState,
        body: &[Stmt<Note>],
        a: &Note,
        count: &Limits,
        line: u32,
    ) -> Result<Flow, Stop>
        requires { Walks self.now.walk.tables.now self.now.walk.routines.now self.now.walk.room (F.pre self.now.walk.enter) (F.post self.now.walk.enter) }
        ensures run { Shows flow_of result (words.count (elem_of a.now.kind) (named_spot a.now.target) count.now.end count.now.step (words.effects (program_of self.now.walk.tables.now) (enter (program_of self.now.walk.tables.now) self.now.walk.room) (statements_of body.now)) line (state_of m.old)) (state_of m.new) }
        ensures base { Keeps result (base_of m.old) (base_of m.new) }
    {
        'turns: loop {
            match self.counting_turn(m, body, a, count, line) {
                Ok(end) => {
                    if is_end(end) {
                        return Ok(ended(end));
                    }
                }
                Err(stop) => return Err(stop),
            }
        }
    }

    /// A turn of FOR.
    #[cycle(bodies)]
    fn counting_turn(
        &self,
        m: &mut RunState,
        body: &[Stmt<Note>],
        a: &Note,
        count: &Limits,
        line: u32,
    ) -> Result<Option<Flow>, Stop>
        requires { Walks self.now.walk.tables.now self.now.walk.routines.now self.now.walk.room (F.pre self.now.walk.enter) (F.post self.now.walk.enter) }
        ensures run { Shows (option_map flow_of) result (one_turn (is_within (named_spot a.now.target) count.now.end count.now.step) (counted (elem_of a.now.kind) (named_spot a.now.target) count.now.step (words.effects (program_of self.now.walk.tables.now) (enter (program_of self.now.walk.tables.now) self.now.walk.room) (statements_of body.now))) line (state_of m.old)) (state_of m.new) }
        ensures base { Keeps result (base_of m.old) (base_of m.new) }
    {
        spend(m, line)?;
        if self.is_counting(m, a, count, line)? {
            let flow = self.counted(m, body, a, count, line)?;
            return Ok(end_of(flow));
        }
        Ok(Some(Flow::GoesOn))
    }

    /// The body of FOR, and then the step.
    #[cycle(bodies)]
    fn counted(
        &self,
        m: &mut RunState,
        body: &[Stmt<Note>],
        a: &Note,
        count: &Limits,
        line: u32,
    ) -> Result<Flow, Stop>
        requires { Walks self.now.walk.tables.now self.now.walk.routines.now self.now.walk.room (F.pre self.now.walk.enter) (F.post self.now.walk.enter) }
        ensures run { Shows flow_of result (counted (elem_of a.now.kind) (named_spot a.now.target) count.now.step (words.effects (program_of self.now.walk.tables.now) (enter (program_of self.now.walk.tables.now) self.now.walk.room) (statements_of body.now)) line (state_of m.old)) (state_of m.new) }
        ensures base { Keeps result (base_of m.old) (base_of m.new) }
    {
        let flow = self.effects(m, body, line)?;
        self.then_step(m, flow, a, count, line)
    }

    /// The test behind a turn of REPEAT, where nothing left it.
    fn tested(
        &self,
        m: &mut RunState,
        e: &Expr<Note>,
        end: Option<Flow>,
        line: u32,
    ) -> Result<Option<Flow>, Stop>
        requires { Walks self.now.walk.tables.now self.now.walk.routines.now self.now.walk.room (F.pre self.now.walk.enter) (F.post self.now.walk.enter) }
        ensures run { Shows (option_map flow_of) result (tested (condition (program_of self.now.walk.tables.now) (enter (program_of self.now.walk.tables.now) self.now.walk.room) (expression_of e.now)) (option_map flow_of end) line (state_of m.old)) (state_of m.new) }
        ensures base { Keeps result (base_of m.old) (base_of m.new) }
    {
        match end {
            Some(flow) => Ok(Some(flow)),
            None => {
                spend(m, line)?;
                if self.holds(m, e, line)? {
                    Ok(Some(Flow::GoesOn))
                } else {
                    Ok(None)
                }
            }
        }
    }

    /// The test of FOR.
    fn is_counting(&self, m: &RunState, a: &Note, count: &Limits, line: u32) -> Result<bool, Stop>
        ensures { Agrees result (is_within (named_spot a.now.target) count.now.end count.now.step line (state_of m.now)) (state_of m.now) }
    {
        is_within(self.walk.alloc, m, &a.target, &count.end, &count.step, line)
    }

    /// The step behind a turn of FOR, and behind CONTINUE.
    fn then_step(
        &self,
        m: &mut RunState,
        flow: Flow,
        a: &Note,
        count: &Limits,
        line: u32,
    ) -> Result<Flow, Stop>
        ensures run { Shows flow_of result (words.then_step (flow_of flow) (words.add_step (elem_of a.now.kind) count.now.step (named_spot a.now.target)) line (state_of m.old)) (state_of m.new) }
        ensures base { Keeps result (base_of m.old) (base_of m.new) }
    {
        let alloc = self.walk.alloc;
        match flow {
            Flow::GoesOn => add_step(alloc, m, elem_of(&a.kind), &a.target, &count.step, line),
            Flow::Continues => add_step(alloc, m, elem_of(&a.kind), &a.target, &count.step, line),
            Flow::Exits => Ok(Flow::Exits),
            Flow::Returns => Ok(Flow::Returns),
        }
    }
}
