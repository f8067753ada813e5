//! The walk over expressions, places and calls.

ghost use Rattle.std.specs.Prelude.{◌≡◌, map, option_map};
ghost use Rattle.st_tree.specs.Expression.{argument_of, arguments_of, expression_of, expressions_of, place_of, selector_of, selectors_of, tails_of};
ghost use Rattle.st_meaning.specs.Enter.{enter};
ghost use Rattle.st_meaning.specs.Expression as words;
ghost use Rattle.st_values.specs.View.{program_of};
ghost use Rattle.program_tables.specs.Routine.{routine_of};
ghost use Rattle.call_frames.specs.Opening.{given_of};
ghost use Rattle.call_steps.specs.Callee.{callee_seen};
ghost use Rattle.routine_tables.specs.Parameters.{parameter_of, parameters_of};
ghost use Rattle.run_state.specs.State.{Agrees, Keeps, Shows, base_of, frame_of, spot_of, state_of};
ghost use Rattle.value_trees.specs.Value.{value_of};
ghost use Rattle.reference_values.specs.Called.{called_effect, written};
ghost use Rattle.reference_values.specs.Walks.{Walks};
ghost use Rattle.reference_values.specs.Private.Parts.{one_argument, one_element, one_operand, one_output, called_of, run_called, run_given, run_same, run_with, sought};

use crate::leaves::{constant_value, duration, int, known, natural, null, reference, typed};
use crate::steps::{
    Called, copy_own, element_of, is_conversion, left_behind, on_instance, push_given, root_note,
    selector_note,
};
use crate::walk::Walk;
use call_frames::{Given, left_in_local};
use call_steps::{
    Callee, Search, base_body, body_on, callee_of, converted_value, function_of, given_place,
    given_value, is_in_out, method_on, next_parameter, output_left, parameter_named, same_in_outs,
};
use plc_text::{FaultKind, NoMemory, Series};
use program_tables::RoutineId;
use routine_tables::Parameter;
use run_state::{Frame, RunState, Spot, Stop, fault, put, spend};
use run_steps::{
    complemented, elem_of, element_kind, followed, is_decided, negated, operate, part_named,
    place_value, root_spot,
};
use st_tree::{Argument, Expr, Note, Path, Place, Selector, Tail, Target};
use st_types::StType;
use value_trees::Value;

impl<F: Fn(&mut RunState, RoutineId, Option<Path>, Series<Given>, u32) -> Result<Frame, Stop>> Walk<
    '_,
    F,
> {
    /// The value of an expression.
    #[cycle(values)]
    #[tactic(auto, using(st_tree::specs::Expression::expression_views, crate::proofs::CallLaws::value_of_call))]
    pub fn value(&self, m: &mut RunState, e: &Expr<Note>, line: u32) -> Result<Value, Stop>
        requires { Walks self.now.tables.now self.now.routines.now self.now.room (F.pre self.now.enter) (F.post self.now.enter) }
        ensures run { Shows value_of result (words.value (program_of self.now.tables.now) (enter (program_of self.now.tables.now) self.now.room) (expression_of e.now) line (state_of m.old)) (state_of m.new) }
        ensures base { Keeps result (base_of m.old) (base_of m.new) }
    {
        match e {
            Expr::Int(_, digits) => match int(digits) {
                Ok(v) => Ok(v),
                Err(NoMemory) => Err(Stop::NoMemory),
            },
            Expr::Typed(_, _, literal) => match typed(literal) {
                Ok(v) => Ok(v),
                Err(NoMemory) => Err(Stop::NoMemory),
            },
            Expr::Time(_, text) => match duration(text) {
                Ok(v) => Ok(v),
                Err(NoMemory) => Err(Stop::NoMemory),
            },
            Expr::True(_) => Ok(natural(1)),
            Expr::False(_) => Ok(natural(0)),
            Expr::Null(_) => Ok(null()),
            Expr::Enumerator(a, _, _, _) => Ok(constant_value(&a.target)),
            Expr::Now(_) => Ok(natural(m.moment)),
            Expr::Place(a, place) => self.name_value(m, place, a, line),
            Expr::Ref(_, place) => {
                let spot = self.place(m, place, line)?;
                Ok(reference(spot))
            }
            Expr::Call(a, place, arguments) => {
                let arguments = arguments.as_slice();
                let callee = callee_of(&place.root, place.selectors.as_slice());
                if is_conversion(&callee) {
                    let v = self.operand(m, arguments, line)?;
                    return Ok(converted_value(&a.kind, &v));
                }
                let called = self.sought(m, place, &callee, line)?;
                let frame = self.run_called(m, arguments, called, line)?;
                left_in_local(self.alloc, m, &frame, 0, line)
            }
            Expr::Paren(_, inner) => self.value(m, inner.get(), line),
            Expr::Not(a, inner) => {
                let v = self.value(m, inner.get(), line)?;
                Ok(complemented(&a.kind, &v))
            }
            Expr::Negate(a, inner) => {
                let v = self.value(m, inner.get(), line)?;
                Ok(negated(&a.kind, &v))
            }
            Expr::Chain(_, first, tails) => {
                let v = self.value(m, first.get(), line)?;
                self.chained(m, tails.as_slice(), v, line)
            }
        }
    }

    /// The value of a place; a constant or an enumerator has none.
    #[cycle(values)]
    #[tactic(auto, using(crate::proofs::PlaceLaws::value_from))]
    fn name_value(
        &self,
        m: &mut RunState,
        place: &Place<Note>,
        a: &Note,
        line: u32,
    ) -> Result<Value, Stop>
        requires { Walks self.now.tables.now self.now.routines.now self.now.room (F.pre self.now.enter) (F.post self.now.enter) }
        ensures run { Shows value_of result (words.name_value a.now.target a.now.kind (words.place (program_of self.now.tables.now) (enter (program_of self.now.tables.now) self.now.room) (place_of place.now).0 (place_of place.now).1) line (state_of m.old)) (state_of m.new) }
        ensures base { Keeps result (base_of m.old) (base_of m.new) }
    {
        match &a.target {
            Target::Constant(z) => Ok(known(z)),
            Target::Enumerator(k) => Ok(natural(u64::from(*k))),
            _ => {
                let spot = self.place(m, place, line)?;
                place_value(self.alloc, m, &a.kind, spot, line)
            }
        }
    }

    /// Operators of one level group to the left.
    #[cycle(values)]
    #[tactic(auto, using(st_tree::specs::Expression::expression_views, crate::proofs::ListLaws::tails_next))]
    fn chained(
        &self,
        m: &mut RunState,
        tails: &[Tail<Note>],
        first: Value,
        line: u32,
    ) -> Result<Value, Stop>
        requires { Walks self.now.tables.now self.now.routines.now self.now.room (F.pre self.now.enter) (F.post self.now.enter) }
        ensures run { Shows value_of result (words.chained (program_of self.now.tables.now) (enter (program_of self.now.tables.now) self.now.room) (value_of first) (tails_of tails.now) line (state_of m.old)) (state_of m.new) }
        ensures base { Keeps result (base_of m.old) (base_of m.new) }
    {
        let mut so_far = first;
        for tail in tails {
            match self.operated(m, tail, so_far, line) {
                Ok(next) => so_far = next,
                Err(stop) => return Err(stop),
            }
        }
        Ok(so_far)
    }

    /// The right operand is evaluated only where the left one does not decide.
    #[cycle(values)]
    fn operated(
        &self,
        m: &mut RunState,
        tail: &Tail<Note>,
        x: Value,
        line: u32,
    ) -> Result<Value, Stop>
        requires { Walks self.now.tables.now self.now.routines.now self.now.room (F.pre self.now.enter) (F.post self.now.enter) }
        ensures run { Shows value_of result (words.operated tail.now.operator tail.now.note.kind (value_of x) (words.value (program_of self.now.tables.now) (enter (program_of self.now.tables.now) self.now.room) (expression_of tail.now.operand)) line (state_of m.old)) (state_of m.new) }
        ensures base { Keeps result (base_of m.old) (base_of m.new) }
    {
        if is_decided(tail.operator, &x) {
            return Ok(x);
        }
        let y = self.value(m, &tail.operand, line)?;
        operate(m, tail.operator, elem_of(&tail.note.kind), &x, y, line)
    }

    /// A place: what its root stands for, and then along the selectors.
    #[cycle(values)]
    #[tactic(auto, using(crate::proofs::PlaceLaws::place_views))]
    pub fn place(&self, m: &mut RunState, place: &Place<Note>, line: u32) -> Result<Spot, Stop>
        requires { Walks self.now.tables.now self.now.routines.now self.now.room (F.pre self.now.enter) (F.post self.now.enter) }
        ensures run { Shows spot_of result (words.place (program_of self.now.tables.now) (enter (program_of self.now.tables.now) self.now.room) (place_of place.now).0 (place_of place.now).1 line (state_of m.old)) (state_of m.new) }
        ensures base { Keeps result (base_of m.old) (base_of m.new) }
    {
        let spot = root_spot(self.alloc, m, &place.root, line)?;
        let kind = &root_note(&place.root).kind;
        self.along(m, place.selectors.as_slice(), kind, spot, line)
    }

    /// Evaluates a place, and writes a value there.
    #[cycle(values)]
    fn write(&self, m: &mut RunState, place: &Place<Note>, v: Value, line: u32) -> Result<(), Stop>
        requires { Walks self.now.tables.now self.now.routines.now self.now.room (F.pre self.now.enter) (F.post self.now.enter) }
        ensures run { Agrees result (written (words.place (program_of self.now.tables.now) (enter (program_of self.now.tables.now) self.now.room) (place_of place.now).0 (place_of place.now).1) (value_of v) line (state_of m.old)) (state_of m.new) }
        ensures base { Keeps result (base_of m.old) (base_of m.new) }
    {
        let spot = self.place(m, place, line)?;
        put(self.alloc, m, &spot, v, line)
    }

    /// Along the selectors, from the left to the right.
    #[cycle(values)]
    #[tactic(auto, using(st_tree::specs::Expression::expression_views))]
    fn along(
        &self,
        m: &mut RunState,
        selectors: &[Selector<Note>],
        kind: &StType,
        spot: Spot,
        line: u32,
    ) -> Result<Spot, Stop>
        requires { Walks self.now.tables.now self.now.routines.now self.now.room (F.pre self.now.enter) (F.post self.now.enter) }
        ensures run { Shows spot_of result (words.along (program_of self.now.tables.now) (enter (program_of self.now.tables.now) self.now.room) (selectors_of selectors.now) kind.now (spot_of spot) line (state_of m.old)) (state_of m.new) }
        ensures base { Keeps result (base_of m.old) (base_of m.new) }
    {
        let mut spot = spot;
        let mut kind = kind;
        for selector in selectors {
            match self.selected(m, selector, kind, spot, line) {
                Ok(next) => spot = next,
                Err(stop) => return Err(stop),
            }
            kind = &selector_note(selector).kind;
        }
        Ok(spot)
    }

    /// One selector.
    #[cycle(values)]
    #[tactic(auto, using(st_tree::specs::Expression::expression_views))]
    fn selected(
        &self,
        m: &mut RunState,
        selector: &Selector<Note>,
        kind: &StType,
        spot: Spot,
        line: u32,
    ) -> Result<Spot, Stop>
        requires { Walks self.now.tables.now self.now.routines.now self.now.room (F.pre self.now.enter) (F.post self.now.enter) }
        ensures run { Shows spot_of result (words.selected (program_of self.now.tables.now) (enter (program_of self.now.tables.now) self.now.room) (selector_of selector.now) kind.now (spot_of spot) line (state_of m.old)) (state_of m.new) }
        ensures base { Keeps result (base_of m.old) (base_of m.new) }
    {
        match selector {
            Selector::Field(a, _) => part_named(self.alloc, m, kind, spot, &a.target, line),
            Selector::Index(_, indices) => self.indexed(m, indices.as_slice(), kind, spot, line),
            Selector::Target(_) => followed(self.alloc, m, kind, spot, line),
        }
    }

    /// Indices, each of which is checked when it is evaluated.
    #[cycle(values)]
    #[tactic(auto, using(crate::proofs::ArgumentLaws::indexed_first))]
    fn indexed(
        &self,
        m: &mut RunState,
        indices: &[Expr<Note>],
        kind: &StType,
        spot: Spot,
        line: u32,
    ) -> Result<Spot, Stop>
        requires { Walks self.now.tables.now self.now.routines.now self.now.room (F.pre self.now.enter) (F.post self.now.enter) }
        ensures run { Shows spot_of result (words.indexed (program_of self.now.tables.now) (enter (program_of self.now.tables.now) self.now.room) (expressions_of indices.now) kind.now (spot_of spot) line (state_of m.old)) (state_of m.new) }
        ensures base { Keeps result (base_of m.old) (base_of m.new) }
    {
        let mut spot = spot;
        let mut kind = kind;
        for index in indices {
            match self.element(m, index, kind, spot, line) {
                Ok(next) => spot = next,
                Err(stop) => return Err(stop),
            }
            kind = element_kind(kind);
        }
        Ok(spot)
    }

    /// One index.
    #[cycle(values)]
    fn element(
        &self,
        m: &mut RunState,
        index: &Expr<Note>,
        kind: &StType,
        spot: Spot,
        line: u32,
    ) -> Result<Spot, Stop>
        requires { Walks self.now.tables.now self.now.routines.now self.now.room (F.pre self.now.enter) (F.post self.now.enter) }
        ensures run { Shows spot_of result (one_element (program_of self.now.tables.now) (enter (program_of self.now.tables.now) self.now.room) (expression_of index.now) kind.now (spot_of spot) line (state_of m.old)) (state_of m.new) }
        ensures base { Keeps result (base_of m.old) (base_of m.new) }
    {
        let v = self.value(m, index, line)?;
        element_of(m, kind, spot, &v, line)
    }

    /// The place that is bound to an in-out.
    #[cycle(values)]
    #[tactic(auto, using(st_tree::specs::Expression::expression_views))]
    fn bound_place(&self, m: &mut RunState, e: &Expr<Note>, line: u32) -> Result<Spot, Stop>
        requires { Walks self.now.tables.now self.now.routines.now self.now.room (F.pre self.now.enter) (F.post self.now.enter) }
        ensures run { Shows spot_of result (words.bound_place (program_of self.now.tables.now) (enter (program_of self.now.tables.now) self.now.room) (expression_of e.now) line (state_of m.old)) (state_of m.new) }
        ensures base { Keeps result (base_of m.old) (base_of m.new) }
    {
        match e {
            Expr::Place(_, place) => self.place(m, place, line),
            Expr::Int(_, _) => Err(fault(FaultKind::Null, line)),
            Expr::Typed(_, _, _) => Err(fault(FaultKind::Null, line)),
            Expr::Time(_, _) => Err(fault(FaultKind::Null, line)),
            Expr::True(_) => Err(fault(FaultKind::Null, line)),
            Expr::False(_) => Err(fault(FaultKind::Null, line)),
            Expr::Null(_) => Err(fault(FaultKind::Null, line)),
            Expr::Call(_, _, _) => Err(fault(FaultKind::Null, line)),
            Expr::Enumerator(_, _, _, _) => Err(fault(FaultKind::Null, line)),
            Expr::Ref(_, _) => Err(fault(FaultKind::Null, line)),
            Expr::Now(_) => Err(fault(FaultKind::Null, line)),
            Expr::Paren(_, _) => Err(fault(FaultKind::Null, line)),
            Expr::Not(_, _) => Err(fault(FaultKind::Null, line)),
            Expr::Negate(_, _) => Err(fault(FaultKind::Null, line)),
            Expr::Chain(_, _, _) => Err(fault(FaultKind::Null, line)),
        }
    }

    /// The operand of a conversion.
    #[cycle(values)]
    #[tactic(auto, using(crate::proofs::ArgumentLaws::operand_first))]
    fn operand(
        &self,
        m: &mut RunState,
        arguments: &[Argument<Note>],
        line: u32,
    ) -> Result<Value, Stop>
        requires { Walks self.now.tables.now self.now.routines.now self.now.room (F.pre self.now.enter) (F.post self.now.enter) }
        ensures run { Shows value_of result (words.operand (program_of self.now.tables.now) (enter (program_of self.now.tables.now) self.now.room) (arguments_of arguments.now) line (state_of m.old)) (state_of m.new) }
        ensures base { Keeps result (base_of m.old) (base_of m.new) }
    {
        match arguments {
            [] => Err(fault(FaultKind::Null, line)),
            [argument, ..] => self.operand_in(m, argument, line),
        }
    }

    /// What stands in an argument without a name.
    #[cycle(values)]
    #[tactic(auto, using(st_tree::specs::Expression::expression_views))]
    fn operand_in(
        &self,
        m: &mut RunState,
        argument: &Argument<Note>,
        line: u32,
    ) -> Result<Value, Stop>
        requires { Walks self.now.tables.now self.now.routines.now self.now.room (F.pre self.now.enter) (F.post self.now.enter) }
        ensures run { Shows value_of result (one_operand (program_of self.now.tables.now) (enter (program_of self.now.tables.now) self.now.room) (argument_of argument.now) line (state_of m.old)) (state_of m.new) }
        ensures base { Keeps result (base_of m.old) (base_of m.new) }
    {
        match argument {
            Argument::Positional(e) => self.value(m, e, line),
            Argument::Input(_, _, _) => Err(fault(FaultKind::Null, line)),
            Argument::Output(_, _, _, _) => Err(fault(FaultKind::Null, line)),
        }
    }

    /// What is given to a parameter: a value, or the place itself.
    #[cycle(values)]
    fn passed(
        &self,
        m: &mut RunState,
        e: &Expr<Note>,
        parameter: Option<Parameter>,
        line: u32,
    ) -> Result<Given, Stop>
        requires { Walks self.now.tables.now self.now.routines.now self.now.room (F.pre self.now.enter) (F.post self.now.enter) }
        ensures run { Shows given_of result (words.passed (option_map parameter_of parameter) (words.value (program_of self.now.tables.now) (enter (program_of self.now.tables.now) self.now.room) (expression_of e.now)) (words.bound_place (program_of self.now.tables.now) (enter (program_of self.now.tables.now) self.now.room) (expression_of e.now)) line (state_of m.old)) (state_of m.new) }
        ensures base { Keeps result (base_of m.old) (base_of m.new) }
    {
        match parameter {
            Some(parameter) => {
                if is_in_out(parameter.sort) {
                    let spot = self.bound_place(m, e, line)?;
                    Ok(given_place(parameter.to, spot))
                } else {
                    let v = self.value(m, e, line)?;
                    Ok(given_value(parameter.to, v))
                }
            }
            None => Err(fault(FaultKind::Null, line)),
        }
    }

    /// What one argument gives; an output gives nothing.
    #[cycle(values)]
    #[tactic(auto, using(st_tree::specs::Expression::expression_views))]
    fn argument(
        &self,
        m: &mut RunState,
        argument: &Argument<Note>,
        parameters: &[Parameter],
        left: &[Parameter],
        line: u32,
    ) -> Result<Option<Given>, Stop>
        requires { Walks self.now.tables.now self.now.routines.now self.now.room (F.pre self.now.enter) (F.post self.now.enter) }
        ensures run { Shows (option_map given_of) result (one_argument (program_of self.now.tables.now) (enter (program_of self.now.tables.now) self.now.room) (parameters_of parameters.now) (parameters_of left.now) (argument_of argument.now) line (state_of m.old)) (state_of m.new) }
        ensures base { Keeps result (base_of m.old) (base_of m.new) }
    {
        match argument {
            Argument::Positional(e) => {
                let one = self.passed(m, e, next_parameter(left), line)?;
                Ok(Some(one))
            }
            Argument::Input(a, _, e) => {
                let one = self.passed(m, e, parameter_named(parameters, a), line)?;
                Ok(Some(one))
            }
            Argument::Output(_, _, _, _) => Ok(None),
        }
    }

    /// Arguments, in written order.
    #[cycle(values)]
    fn arguments(
        &self,
        m: &mut RunState,
        arguments: &[Argument<Note>],
        parameters: &[Parameter],
        line: u32,
    ) -> Result<Series<Given>, Stop>
        requires { Walks self.now.tables.now self.now.routines.now self.now.room (F.pre self.now.enter) (F.post self.now.enter) }
        ensures run { Shows (map given_of) result (words.arguments (program_of self.now.tables.now) (enter (program_of self.now.tables.now) self.now.room) (parameters_of parameters.now) (parameters_of parameters.now) (arguments_of arguments.now) line (state_of m.old)) (state_of m.new) }
        ensures base { Keeps result (base_of m.old) (base_of m.new) }
    {
        let mut given = Series::new(self.alloc);
        let mut left = parameters;
        for argument in arguments {
            let one = match self.argument(m, argument, parameters, left, line) {
                Ok(one) => one,
                Err(stop) => return Err(stop),
            };
            let Ok(()) = push_given(&mut given, one) else {
                return Err(Stop::NoMemory);
            };
            left = left_behind(argument, left);
        }
        Ok(given)
    }

    /// One output: it is read, then its place is evaluated, then it is written.
    #[cycle(values)]
    #[tactic(auto, using(st_tree::specs::Expression::expression_views))]
    fn output(
        &self,
        m: &mut RunState,
        argument: &Argument<Note>,
        parameters: &[Parameter],
        own: Option<&Path>,
        frame: &Frame,
        line: u32,
    ) -> Result<(), Stop>
        requires { Walks self.now.tables.now self.now.routines.now self.now.room (F.pre self.now.enter) (F.post self.now.enter) }
        ensures run { Agrees result (one_output (program_of self.now.tables.now) (enter (program_of self.now.tables.now) self.now.room) (parameters_of parameters.now) (option_map (λ q. q.now) own.entry) (frame_of frame.now) (argument_of argument.now) line (state_of m.old)) (state_of m.new) }
        ensures base { Keeps result (base_of m.old) (base_of m.new) }
    {
        match argument {
            Argument::Output(a, _, _, place) => {
                let parameter = parameter_named(parameters, a);
                let v = output_left(self.alloc, m, parameter, own, frame, line)?;
                self.write(m, place, v, line)
            }
            Argument::Positional(_) => Ok(()),
            Argument::Input(_, _, _) => Ok(()),
        }
    }

    /// Outputs, in written order.
    #[cycle(values)]
    fn outputs(
        &self,
        m: &mut RunState,
        arguments: &[Argument<Note>],
        parameters: &[Parameter],
        own: Option<&Path>,
        frame: &Frame,
        line: u32,
    ) -> Result<(), Stop>
        requires { Walks self.now.tables.now self.now.routines.now self.now.room (F.pre self.now.enter) (F.post self.now.enter) }
        ensures run { Agrees result (words.outputs (program_of self.now.tables.now) (enter (program_of self.now.tables.now) self.now.room) (parameters_of parameters.now) (option_map (λ q. q.now) own.entry) (frame_of frame.now) (arguments_of arguments.now) line (state_of m.old)) (state_of m.new) }
        ensures base { Keeps result (base_of m.old) (base_of m.new) }
    {
        for argument in arguments {
            match self.output(m, argument, parameters, own, frame, line) {
                Ok(()) => {}
                Err(stop) => return Err(stop),
            }
        }
        Ok(())
    }

    /// A tick, the routine with what is given, and outputs.
    #[cycle(values)]
    fn run_routine(
        &self,
        m: &mut RunState,
        arguments: &[Argument<Note>],
        routine: RoutineId,
        own: Option<Path>,
        given: Series<Given>,
        line: u32,
    ) -> Result<Frame, Stop>
        requires { Walks self.now.tables.now self.now.routines.now self.now.room (F.pre self.now.enter) (F.post self.now.enter) }
        ensures run { Shows frame_of result (run_given (program_of self.now.tables.now) (enter (program_of self.now.tables.now) self.now.room) (routine_of self.now.tables.now routine) own (map given_of given) (arguments_of arguments.now) line (state_of m.old)) (state_of m.new) }
        ensures base { Keeps result (base_of m.old) (base_of m.new) }
    {
        let Ok(kept) = copy_own(self.alloc, &own) else {
            return Err(Stop::NoMemory);
        };
        spend(m, line)?;
        let frame = self.entered(m, routine, own, given, line)?;
        let parameters = self.parameters(routine);
        self.outputs(m, arguments, parameters, kept.as_ref(), &frame, line)?;
        Ok(frame)
    }

    /// A routine with its arguments.
    #[cycle(values)]
    fn run_with(
        &self,
        m: &mut RunState,
        arguments: &[Argument<Note>],
        routine: RoutineId,
        own: Option<Path>,
        line: u32,
    ) -> Result<Frame, Stop>
        requires { Walks self.now.tables.now self.now.routines.now self.now.room (F.pre self.now.enter) (F.post self.now.enter) }
        ensures run { Shows frame_of result (run_with (program_of self.now.tables.now) (enter (program_of self.now.tables.now) self.now.room) (routine_of self.now.tables.now routine) own (arguments_of arguments.now) line (state_of m.old)) (state_of m.new) }
        ensures base { Keeps result (base_of m.old) (base_of m.new) }
    {
        let parameters = self.parameters(routine);
        let given = self.arguments(m, arguments, parameters, line)?;
        self.run_routine(m, arguments, routine, own, given, line)
    }

    /// A body with the in-outs of the body that runs.
    #[cycle(values)]
    fn run_same(
        &self,
        m: &mut RunState,
        arguments: &[Argument<Note>],
        routine: RoutineId,
        own: Option<Path>,
        line: u32,
    ) -> Result<Frame, Stop>
        requires { Walks self.now.tables.now self.now.routines.now self.now.room (F.pre self.now.enter) (F.post self.now.enter) }
        ensures run { Shows frame_of result (run_same (program_of self.now.tables.now) (enter (program_of self.now.tables.now) self.now.room) (routine_of self.now.tables.now routine) own (arguments_of arguments.now) line (state_of m.old)) (state_of m.new) }
        ensures base { Keeps result (base_of m.old) (base_of m.new) }
    {
        let parameters = self.parameters(routine);
        let given = same_in_outs(self.alloc, m, parameters, line)?;
        self.run_routine(m, arguments, routine, own, given, line)
    }

    /// The routine of a call that is no conversion, and its instance: the target comes first.
    #[cycle(values)]
    fn sought(
        &self,
        m: &mut RunState,
        place: &Place<Note>,
        callee: &Callee<'_>,
        line: u32,
    ) -> Result<Called, Stop>
        requires { Walks self.now.tables.now self.now.routines.now self.now.room (F.pre self.now.enter) (F.post self.now.enter) }
        ensures run { Shows (called_of self.now.tables.now) result (sought (program_of self.now.tables.now) (enter (program_of self.now.tables.now) self.now.room) (callee_seen callee.now) (place_of place.now).0 (place_of place.now).1 line (state_of m.old)) (state_of m.new) }
        ensures base { Keeps result (base_of m.old) (base_of m.new) }
    {
        match callee {
            Callee::Conversion => Err(fault(FaultKind::Null, line)),
            Callee::Function(number) => {
                let routine = function_of(self.tables, m, *number, line)?;
                Ok(Called {
                    routine,
                    own: None,
                    same: false,
                })
            }
            Callee::Method(search, name) => {
                let spot = self.place(m, place, line)?;
                let found = method_on(self.tables, m, *search, name, spot, line)?;
                Ok(on_instance(found, false))
            }
            Callee::Body(search) => match search {
                Search::ByInstance => {
                    let spot = self.place(m, place, line)?;
                    let found = body_on(self.tables, m, spot, line)?;
                    Ok(on_instance(found, false))
                }
                Search::FromClass(class) => {
                    let spot = self.place(m, place, line)?;
                    let found = base_body(self.tables, m, *class, spot, line)?;
                    Ok(on_instance(found, true))
                }
            },
        }
    }

    /// Runs what a call calls.
    #[cycle(values)]
    fn run_called(
        &self,
        m: &mut RunState,
        arguments: &[Argument<Note>],
        called: Called,
        line: u32,
    ) -> Result<Frame, Stop>
        requires { Walks self.now.tables.now self.now.routines.now self.now.room (F.pre self.now.enter) (F.post self.now.enter) }
        ensures run { Shows frame_of result (run_called (program_of self.now.tables.now) (enter (program_of self.now.tables.now) self.now.room) (called_of self.now.tables.now called) (arguments_of arguments.now) line (state_of m.old)) (state_of m.new) }
        ensures base { Keeps result (base_of m.old) (base_of m.new) }
    {
        if called.same {
            self.run_same(m, arguments, called.routine, called.own, line)
        } else {
            self.run_with(m, arguments, called.routine, called.own, line)
        }
    }

    /// What a call does as a statement.
    #[tactic(auto, using(crate::proofs::PlaceLaws::place_views, crate::proofs::CallLaws::effect_of_call))]
    pub fn call_effect(
        &self,
        m: &mut RunState,
        place: &Place<Note>,
        arguments: &[Argument<Note>],
        line: u32,
    ) -> Result<(), Stop>
        requires { Walks self.now.tables.now self.now.routines.now self.now.room (F.pre self.now.enter) (F.post self.now.enter) }
        ensures run { Agrees result (called_effect (program_of self.now.tables.now) (enter (program_of self.now.tables.now) self.now.room) (place_of place.now).0 (place_of place.now).1 (arguments_of arguments.now) line (state_of m.old)) (state_of m.new) }
        ensures base { Keeps result (base_of m.old) (base_of m.new) }
    {
        let callee = callee_of(&place.root, place.selectors.as_slice());
        if is_conversion(&callee) {
            let _ = self.operand(m, arguments, line)?;
            return Ok(());
        }
        let called = self.sought(m, place, &callee, line)?;
        let _ = self.run_called(m, arguments, called, line)?;
        Ok(())
    }
}
