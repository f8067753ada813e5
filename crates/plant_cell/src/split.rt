//! Passes that are split and joined, and their numbers.

ghost use Rattle.std.specs.Prelude.{◌≡◌, ◌+◌, ◌<◌, ◌≤◌, ◌++◌, length, vec_len, vec_capacity, IfOk, IfErr, Some};
ghost use Rattle.plant_cell.specs.Known.{looked, drawn, longer_of};
ghost use Rattle.plant_cell.specs.Rule.{Looked};
ghost use Rattle.plant_cell.specs.Plant.{AtRest};
ghost use Rattle.plant_cell.specs.Split.{Provided, HandsOn, IsRefused};

use crate::pass::{Pass, PassOver, SplitError};
use crate::plant::PlantOver;
use crate::rule::{Draw, HandOn, Law, Look, Origin, Place, TakeOver, View};
use plant_core::Core;
use plant_rules::Controlled;

// The numbers go behind the others.
fn push_all(to: &mut Vec<u32>, from: &[u32])
    requires { vec_len to.old + length from.now ≤ vec_capacity to.old }
    ensures items { to.new.items ≡ to.old.items ++ from.now }
    ensures capacity { vec_capacity to.new ≡ vec_capacity to.old }
{
    for number in from {
        to.push_reserved(*number);
    }
}

impl<P: Controlled> PlantOver<Option<Core<P>>, View<P>, Origin<P>, Law<P>> {
    // How many numbers are made.
    fn look(&self, seat: &mut Place<P>) -> u64
        requires { seat.old.table_id ≡ self.now.table.shared.table_id }
        ensures table { (seat.new.table_id ≡ seat.old.table_id) × (seat.new.id ≡ seat.old.id) }
        ensures told { Looked seat.old.me result seat.new.me }
    {
        self.table.shared.load::<Look>(seat, 2)
    }

    // Makes a number, unless all are made.
    fn draw(&self, seat: &mut Place<P>) -> Result<u32, u32>
        requires table { seat.old.table_id ≡ self.now.table.shared.table_id }
        requires start { seat.old.me.0.start ≡ Some self.now.table.shared.key.0.value }
        requires limit { seat.old.me.0.limit ≡ self.now.passes }
        ensures table { (seat.new.table_id ≡ seat.old.table_id) × (seat.new.id ≡ seat.old.id) }
        ensures made { IfOk result (λ n. (n < self.now.passes) × (seat.old.me.0.least ≤ n) × (seat.new.me ≡ (drawn seat.old.me.0 n, seat.old.me.1))) }
        ensures full { IfErr result (λ n. (n ≡ self.now.passes) × (seat.new.me ≡ (looked seat.old.me.0 n, seat.old.me.1))) }
    {
        let passes = self.passes as u64;
        let mut known = self.look(seat);
        while known < passes {
            let found = self
                .table
                .shared
                .compare_exchange::<Draw>(seat, 2, known, known + 1);
            if found == known {
                return Ok(known as u32);
            }
            known = found;
        }
        Err(known as u32)
    }

    // The pass has a number beside its first, or another is made.
    fn provide(&self, pass: &mut Pass<P>) -> Result<(), u32>
        requires plant { pass.old.seat.table_id ≡ self.now.table.shared.table_id }
        requires rest { AtRest P.meaning self.now.table.shared.key.0.value self.now.passes pass.old.numbers.items pass.old.seat.me }
        ensures plant { pass.new.seat.table_id ≡ pass.old.seat.table_id }
        ensures rest { AtRest P.meaning self.now.table.shared.key.0.value self.now.passes pass.new.numbers.items pass.new.seat.me }
        ensures seen { pass.new.seat.me.0.seen ≡ pass.old.seat.me.0.seen }
        ensures ok { IfOk result (λ _. Provided pass.old.numbers.items pass.old.seat.me.0.least self.now.passes pass.new.numbers.items) }
        ensures full { IfErr result (λ n. (n ≡ self.now.passes) × (pass.new.seat.me.0.least ≡ self.now.passes) × (length pass.old.numbers.items ≡ 1) × (pass.new.numbers.items ≡ pass.old.numbers.items)) }
    {
        if pass.numbers.len() != 1 {
            return Ok(());
        }
        match self.draw(&mut pass.seat) {
            Ok(number) => {
                pass.numbers.push_reserved(number);
                Ok(())
            }
            Err(made) => Err(made),
        }
    }

    /// A pass that has seen what this one has. It takes over a number that this one has beside its first, or else one that is made.
    pub fn split_pass(&self, pass: &mut Pass<P>) -> Result<Pass<P>, SplitError>
        requires plant { pass.old.seat.table_id ≡ self.now.table.shared.table_id }
        requires rest { AtRest P.meaning self.now.table.shared.key.0.value self.now.passes pass.old.numbers.items pass.old.seat.me }
        ensures plant { pass.new.seat.table_id ≡ pass.old.seat.table_id }
        ensures rest { AtRest P.meaning self.now.table.shared.key.0.value self.now.passes pass.new.numbers.items pass.new.seat.me }
        ensures seen { pass.new.seat.me.0.seen ≡ pass.old.seat.me.0.seen }
        ensures other { IfOk result (λ r. (r.seat.table_id ≡ pass.old.seat.table_id) × AtRest P.meaning self.now.table.shared.key.0.value self.now.passes r.numbers.items r.seat.me × (r.seat.me.0.seen ≡ pass.old.seat.me.0.seen)) }
        ensures handed { IfOk result (λ r. HandsOn pass.old.numbers.items pass.old.seat.me.0.least self.now.passes pass.new.numbers.items r.numbers.items) }
        ensures refused { IfErr result (λ e. IsRefused e self.now.passes pass.old.numbers.items pass.old.seat.me.0 pass.new.numbers.items pass.new.seat.me.0) }
    {
        match self.provide(pass) {
            Ok(()) => {}
            Err(made) => return Err(SplitError::Full { made }),
        }
        let mut numbers = match Vec::with_capacity(self.alloc, 64) {
            Ok(numbers) => numbers,
            Err(_) => return Err(SplitError::NoMemory),
        };
        match pass.numbers.pop() {
            Some(number) => numbers.push_reserved(number),
            None => unreachable!(),
        }
        let seat = self.table.shared.split_seat::<HandOn>(&mut pass.seat);
        Ok(PassOver { numbers, seat })
    }

    /// One pass of two, which has seen what either has, and has the numbers of both.
    pub fn join_pass(&self, pass: &mut Pass<P>, other: Pass<P>)
        requires plant { (pass.old.seat.table_id ≡ self.now.table.shared.table_id) × (other.seat.table_id ≡ self.now.table.shared.table_id) }
        requires rest { AtRest P.meaning self.now.table.shared.key.0.value self.now.passes pass.old.numbers.items pass.old.seat.me }
        requires other { AtRest P.meaning self.now.table.shared.key.0.value self.now.passes other.numbers.items other.seat.me }
        ensures plant { pass.new.seat.table_id ≡ pass.old.seat.table_id }
        ensures rest { AtRest P.meaning self.now.table.shared.key.0.value self.now.passes pass.new.numbers.items pass.new.seat.me }
        ensures numbers { pass.new.numbers.items ≡ pass.old.numbers.items ++ other.numbers.items }
        ensures seen { pass.new.seat.me.0.seen ≡ longer_of pass.old.seat.me.0.seen other.seat.me.0.seen }
    {
        let PassOver { numbers, seat } = other;
        self.table
            .shared
            .join_seat::<TakeOver>(&mut pass.seat, seat);
        self.look(&mut pass.seat);
        push_all(&mut pass.numbers, numbers.as_slice());
    }
}
