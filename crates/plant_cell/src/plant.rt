//! The plant: one core, and turns at it.

ghost use Rattle.std.specs.Prelude.{◌≡◌, ◌≤◌, [], ◌∷◌, IfOk, MatchBool};
ghost use Rattle.plant_cell.specs.Known.{in_turn, counted, out_of_turn, by_numbers, first_of};
ghost use Rattle.plant_cell.specs.Rule.{Took};
ghost use Rattle.plant_cell.specs.Plant.{AtRest, InTurn, Found, Grown, KeepsOpen, KeepsDone, KeepsTurn};

use crate::pass::{Pass, PassOver, Turn};
use crate::rule::{Board, Count, Law, Origin, Place, Release, Take, View};
use atomic_table::{Table, TableRule};
use plant_core::Core;
use plant_rules::Controlled;
use plc_text::NoMemory;
use std::alloc::Global;
use std::snapshot::Snapshot;
use std::sync::Wait;
use std::thread::yield_now;

/// A table of three words and one slot, for a plant of any program.
pub struct PlantOver<S, V, K, L: TableRule<S, V, K>> {
    pub alloc: Global,
    /// How many passes it may have.
    pub passes: u32,
    pub table: Table<S, V, K, L, Global>,
    pub ghost counts: { (table.shared.table_id.words ≡ 3) × (table.shared.table_id.slots ≡ 1) },
    pub ghost few: { passes ≤ 64 },
}

impl<S: Drop, V, K, L: TableRule<S, V, K>> Drop for PlantOver<S, V, K, L> {
    fn drop(self) {
        let PlantOver {
            alloc: _,
            passes: _,
            table,
        } = self;
        drop(table);
    }
}

/// One core that threads share.
pub type Plant<P> = PlantOver<Option<Core<P>>, View<P>, Origin<P>, Law<P>>;

impl<P: Controlled> PlantOver<Option<Core<P>>, View<P>, Origin<P>, Law<P>> {
    /// A plant of a core that has no event yet, and the first of its passes. After want of memory the core is given up.
    pub fn new(alloc: Global, core: Core<P>, passes: u32) -> Result<(Plant<P>, Pass<P>), NoMemory>
        requires empty { core.history ≡ [] }
        requires passes { (1 ≤ passes) × (passes ≤ 64) }
        ensures plant { IfOk result (λ r. (r.0.passes ≡ passes) × (r.0.table.shared.key.0.value ≡ core)) }
        ensures pass { IfOk result (λ r. (r.1.seat.table_id ≡ r.0.table.shared.table_id) × AtRest P.meaning r.0.table.shared.key.0.value passes r.1.numbers.items r.1.seat.me) }
        ensures first { IfOk result (λ r. (r.1.numbers.items ≡ 0 ∷ []) × (r.1.seat.me.0.seen ≡ []) × (r.1.seat.me.0.least ≡ 1)) }
    {
        core.is_lawful();
        let start = Snapshot::of(&core);
        let origin = (start, passes);
        let mut numbers = Vec::with_capacity(alloc, 64)?;
        let mut slots = Vec::with_capacity(alloc, 1)?;
        slots.push_reserved(Some(core));
        let (table, seat): (Board<P>, Place<P>) = match Table::new(
            alloc,
            &[0, 0, 1],
            slots,
            &origin,
        ) {
            Ok(made) => made,
            Err(_refused) => return Err(NoMemory),
        };
        numbers.push_reserved(0);
        Ok((
            PlantOver {
                alloc,
                passes,
                table,
            },
            PassOver { numbers, seat },
        ))
    }

    // Takes the turn, unless another pass has it.
    fn take(&self, seat: &mut Place<P>, number: u32) -> bool
        requires table { seat.old.table_id ≡ self.now.table.shared.table_id }
        requires start { seat.old.me.0.start ≡ Some self.now.table.shared.key.0.value }
        requires free { seat.old.me.1 ≡ [] }
        ensures table { (seat.new.table_id ≡ seat.old.table_id) × (seat.new.id ≡ seat.old.id) }
        ensures took { MatchBool result (Took seat.old.me seat.new.me) (seat.new.me ≡ seat.old.me) }
    {
        let found = self
            .table
            .shared
            .compare_exchange::<Take>(seat, 0, 0, number as u64 + 1);
        found == 0
    }

    /// Takes the turn, and the core with it. It tries again while another pass has the turn.
    pub fn enter<R: Wait>(&self, rt: &R, pass: &mut Pass<P>) -> Turn<P>
        requires plant { pass.old.seat.table_id ≡ self.now.table.shared.table_id }
        requires rest { AtRest P.meaning self.now.table.shared.key.0.value self.now.passes pass.old.numbers.items pass.old.seat.me }
        ensures plant { pass.new.seat.table_id ≡ pass.old.seat.table_id }
        ensures numbers { pass.new.numbers.items ≡ pass.old.numbers.items }
        ensures turn { InTurn P.meaning self.now.table.shared.key.0.value self.now.passes pass.old.numbers.items pass.new.seat.me }
        ensures known { pass.new.seat.me.0 ≡ in_turn pass.old.seat.me.0 result.core.history }
        ensures found { Found self.now.table.shared.key.0.value pass.old.numbers.items pass.old.seat.me.0.seen result.core }
        ensures mine { by_numbers pass.old.numbers.items result.core.history ≡ by_numbers pass.old.numbers.items pass.old.seat.me.0.seen }
        ensures open { KeepsOpen P.meaning self.now.table.shared.key.0.value pass.old.numbers.items pass.old.seat.me.0.seen result.core }
        ensures done { KeepsDone P.meaning self.now.table.shared.key.0.value pass.old.seat.me.0.seen result.core }
        ensures change { KeepsTurn P.meaning self.now.table.shared.key.0.value pass.old.numbers.items pass.old.seat.me.0.seen result.core }
    {
        let number = pass.number();
        for _ in rt.forever() {
            if self.take(&mut pass.seat, number) {
                match self.table.shared.exchange(&mut pass.seat, 0, None) {
                    Some(core) => {
                        core.is_lawful();
                        return Turn { core };
                    }
                    None => unreachable!(),
                }
            }
            yield_now();
        }
        unreachable!()
    }

    /// Gives the turn back, and the core, to which events with the pass's first number may have been added.
    pub fn leave(&self, pass: &mut Pass<P>, turn: Turn<P>)
        requires plant { pass.old.seat.table_id ≡ self.now.table.shared.table_id }
        requires turn { InTurn P.meaning self.now.table.shared.key.0.value self.now.passes pass.old.numbers.items pass.old.seat.me }
        requires grown { Grown self.now.table.shared.key.0.value (first_of pass.old.numbers.items) pass.old.seat.me.0.found turn.core }
        ensures plant { pass.new.seat.table_id ≡ pass.old.seat.table_id }
        ensures numbers { pass.new.numbers.items ≡ pass.old.numbers.items }
        ensures rest { AtRest P.meaning self.now.table.shared.key.0.value self.now.passes pass.old.numbers.items pass.new.seat.me }
        ensures known { pass.new.seat.me.0 ≡ out_of_turn (counted pass.old.seat.me.0 turn.core.history) }
    {
        let Turn { core } = turn;
        let events = core.count() as u64;
        let board = &self.table.shared;
        match board.exchange(&mut pass.seat, 0, Some(core)) {
            Some(_core) => unreachable!(),
            None => {}
        }
        board.store::<Count>(&mut pass.seat, 1, events);
        board.store::<Release>(&mut pass.seat, 0, 0);
    }

    /// Ends the plant, and gives its core back. It waits for the turn.
    pub fn end<R: Wait>(self, rt: &R, pass: Pass<P>) -> Core<P>
        requires plant { pass.seat.table_id ≡ self.table.shared.table_id }
        requires rest { AtRest P.meaning self.table.shared.key.0.value self.passes pass.numbers.items pass.seat.me }
        ensures found { Found self.table.shared.key.0.value pass.numbers.items pass.seat.me.0.seen result }
        ensures mine { by_numbers pass.numbers.items result.history ≡ by_numbers pass.numbers.items pass.seat.me.0.seen }
        ensures open { KeepsOpen P.meaning self.table.shared.key.0.value pass.numbers.items pass.seat.me.0.seen result }
        ensures done { KeepsDone P.meaning self.table.shared.key.0.value pass.seat.me.0.seen result }
        ensures change { KeepsTurn P.meaning self.table.shared.key.0.value pass.numbers.items pass.seat.me.0.seen result }
    {
        let mut pass = pass;
        let turn = self.enter(rt, &mut pass);
        let Turn { core } = turn;
        let PlantOver {
            alloc: _,
            passes: _,
            table: _,
        } = self;
        core
    }
}
