//! A cycle in two turns: begun in one, ended in another.

ghost use Rattle.std.specs.Prelude.{◌≡◌, ◌≤◌, true, length};
ghost use Rattle.std.specs.Arc.{arc_value};
ghost use Rattle.plant_rules.specs.History.{at_play, begun, is_cycle, state_of, stage_at, done};
ghost use Rattle.plant_core.specs.Claim.{HasRun};
ghost use Rattle.plant_cell.specs.Known.{past_at, first_of};
ghost use Rattle.plant_cell.specs.Plant.{AtRest, KeepsOpen, KeepsTurn};
ghost use Rattle.plant_cell.specs.Cycles.{HasEntry, KeepsEntries, KeepsOthersOpen, HasOpened, GrowsBy, IsWaiting, TriedIs, TriedAdds, EndAdds, TurnAdds};

use crate::pass::{Pass, Turn};
use crate::plant::PlantOver;
use crate::rule::{Law, Origin, View};
use plant_core::{Begun, Claim, Core, Ran};
use plant_rules::Controlled;
use std::sync::Wait;

/// What came of a cycle that was to begin.
#[derive(Drop)]
pub enum Tried<C> {
    Claim(C),
    /// The play has its entry.
    Done,
    /// It cannot begin yet, and has to be tried again.
    Again,
}

fn begin_in<P: Controlled>(core: &mut Core<P>, who: u32, play: u32) -> Tried<Claim<P>>
    requires there { play ≤ length core.old.script.plays }
    requires cycle { is_cycle (at_play P.meaning core.old.script play) ≡ true }
    ensures grown { GrowsBy who core.old core.new }
    ensures adds { TriedAdds result who play (λ c. begun c.task (arc_value c.kit.shared) c.kit.carrier) core.old core.new }
    ensures tried { TriedIs result (λ c. HasOpened P.meaning core.new who play c.play c.task c.now c.input.items (arc_value c.kit.shared) c.kit.carrier × P.ready (arc_value c.kit.shared) c.task c.kit.work) (stage_at (state_of P.meaning core.new).stages play ≡ done) (IsWaiting P.meaning core.new play) }
{
    match core.begin(who, play) {
        Begun::Claim(claim) => Tried::Claim(claim),
        Begun::Answered => Tried::Done,
        Begun::Twice => {
            if core.is_done(play) {
                Tried::Done
            } else {
                Tried::Again
            }
        }
        Begun::Early { .. } => Tried::Again,
        Begun::Paused { .. } => Tried::Again,
        Begun::Busy { .. } => Tried::Again,
    }
}

impl<P: Controlled> PlantOver<Option<Core<P>>, View<P>, Origin<P>, Law<P>> {
    /// Begins the cycle of a play, in a turn of its own.
    pub fn try_play<R: Wait>(&self, rt: &R, pass: &mut Pass<P>, play: u32) -> Tried<Claim<P>>
        requires plant { pass.old.seat.table_id ≡ self.now.table.shared.table_id }
        requires rest { AtRest P.meaning self.now.table.shared.key.0.value self.now.passes pass.old.numbers.items pass.old.seat.me }
        requires there { play ≤ length self.now.table.shared.key.0.value.script.plays }
        requires cycle { is_cycle (at_play P.meaning self.now.table.shared.key.0.value.script play) ≡ true }
        ensures plant { pass.new.seat.table_id ≡ pass.old.seat.table_id }
        ensures numbers { pass.new.numbers.items ≡ pass.old.numbers.items }
        ensures rest { AtRest P.meaning self.now.table.shared.key.0.value self.now.passes pass.new.numbers.items pass.new.seat.me }
        ensures adds { TurnAdds self.now.table.shared.key.0.value pass.old.numbers.items pass.old.seat.me.0.seen pass.new.seat.me.0.seen (TriedAdds result (first_of pass.old.numbers.items) play (λ c. begun c.task (arc_value c.kit.shared) c.kit.carrier)) }
        ensures open { KeepsOpen P.meaning self.now.table.shared.key.0.value pass.old.numbers.items pass.old.seat.me.0.seen (past_at self.now.table.shared.key.0.value pass.new.seat.me.0.seen) }
        ensures change { KeepsTurn P.meaning self.now.table.shared.key.0.value pass.old.numbers.items pass.old.seat.me.0.seen (past_at self.now.table.shared.key.0.value pass.new.seat.me.0.seen) }
        ensures kept { KeepsEntries P.meaning self.now.table.shared.key.0.value pass.old.seat.me.0.seen pass.new.seat.me.0.seen }
        ensures tried { TriedIs result (λ c. HasOpened P.meaning (past_at self.now.table.shared.key.0.value pass.new.seat.me.0.seen) (first_of pass.old.numbers.items) play c.play c.task c.now c.input.items (arc_value c.kit.shared) c.kit.carrier × P.ready (arc_value c.kit.shared) c.task c.kit.work) (HasEntry P.meaning self.now.table.shared.key.0.value pass.new.seat.me.0.seen play) (IsWaiting P.meaning (past_at self.now.table.shared.key.0.value pass.new.seat.me.0.seen) play) }
    {
        let who = pass.number();
        let turn = self.enter(rt, pass);
        let Turn { mut core } = turn;
        let tried = begin_in(&mut core, who, play);
        core.is_lawful();
        self.leave(pass, Turn { core });
        tried
    }

    /// Ends the cycle of a play, in a turn of its own.
    pub fn end_play<R: Wait>(&self, rt: &R, pass: &mut Pass<P>, ran: Ran<P>)
        requires plant { pass.old.seat.table_id ≡ self.now.table.shared.table_id }
        requires rest { AtRest P.meaning self.now.table.shared.key.0.value self.now.passes pass.old.numbers.items pass.old.seat.me }
        requires ran { HasRun P.meaning self.now.table.shared.key.0.value.script (state_of P.meaning (past_at self.now.table.shared.key.0.value pass.old.seat.me.0.seen)) (first_of pass.old.numbers.items) ran.play ran.task ran.now ran.input.value.items (arc_value ran.kit.shared) ran.taken.value ran.reply ran.kit.carrier }
        requires work { P.ready (arc_value ran.kit.shared) ran.task ran.kit.work }
        ensures plant { pass.new.seat.table_id ≡ pass.old.seat.table_id }
        ensures numbers { pass.new.numbers.items ≡ pass.old.numbers.items }
        ensures rest { AtRest P.meaning self.now.table.shared.key.0.value self.now.passes pass.new.numbers.items pass.new.seat.me }
        ensures adds { TurnAdds self.now.table.shared.key.0.value pass.old.numbers.items pass.old.seat.me.0.seen pass.new.seat.me.0.seen (EndAdds (first_of pass.old.numbers.items) ran.play ran.reply) }
        ensures open { KeepsOthersOpen P.meaning ran.play self.now.table.shared.key.0.value pass.old.numbers.items pass.old.seat.me.0.seen (past_at self.now.table.shared.key.0.value pass.new.seat.me.0.seen) }
        ensures change { KeepsTurn P.meaning self.now.table.shared.key.0.value pass.old.numbers.items pass.old.seat.me.0.seen (past_at self.now.table.shared.key.0.value pass.new.seat.me.0.seen) }
        ensures kept { KeepsEntries P.meaning self.now.table.shared.key.0.value pass.old.seat.me.0.seen pass.new.seat.me.0.seen }
        ensures entry { HasEntry P.meaning self.now.table.shared.key.0.value pass.new.seat.me.0.seen ran.play }
    {
        let who = pass.number();
        let turn = self.enter(rt, pass);
        let Turn { mut core } = turn;
        core.finish(who, ran);
        core.is_lawful();
        self.leave(pass, Turn { core });
    }
}
