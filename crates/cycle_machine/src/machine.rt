//! The state of a run, and what one instruction does to it.

ghost use Rattle.std.specs.Prelude.{◌≡◌, ◌+◌, ◌^◌, ◌<◌, length};
ghost use Rattle.stack_code.specs.Machine as machine;
ghost use Rattle.cycle_machine.specs.Room.{HoldsLocals};
ghost use Rattle.cycle_machine.specs.Private.Machine.{config, went, Keeps, IsTall};

use machine_memory::{Frames, Locals, Words};
use mem_image::Regions;
use stack_code::{Ending, Frame, Op, ValidCode};

/// The state of a run. Between runs it has no regions.
pub struct Machine {
    pub words: Words,
    pub locals: Locals,
    pub frames: Frames,
    pub regions: Regions,
    pub here: Frame,
    pub ticks: u32,
}

// By hand, so that a drop is one call: a derived one is written out wherever a `?` may need it, and a proof goes over each part.
impl Drop for Machine {
    fn drop(self) {
        let Machine {
            words,
            locals,
            frames,
            regions,
            here,
            ticks: _,
        } = self;
        drop(words);
        drop(locals);
        drop(frames);
        drop(regions);
        drop(here);
    }
}

impl Machine {
    /// Does one instruction.
    #[inline]
    pub fn step(&mut self, code: &ValidCode, now: u32, op: Op, line: u32) -> Result<(), Ending>
        requires locals { HoldsLocals code.now self.old.locals.stride }
        requires tall { IsTall self.old }
        requires space { length self.old.words.words < self.old.words.room }
        requires next { self.old.here.next + 1 < 2 ^ 32 }
        ensures value { machine.act code.now now op line (config self.old) ≡ went result (config self.new) }
        ensures regions { Keeps result self.old.regions self.new.regions }
        ensures room { self.new.words.room ≡ self.old.words.room }
        ensures stride { self.new.locals.stride ≡ self.old.locals.stride }
    {
        match op {
            Op::Push(n) => self.push_number(n),
            Op::Null => self.push_null(),
            Op::Drop => self.drop_word(),
            Op::Dup => self.double(),
            Op::Local(offset) => self.push_local(offset),
            Op::This(offset) => self.push_own(offset),
            Op::Region(region, offset) => self.push_region(region, offset),
            Op::Offset(bytes) => self.move_on(bytes),
            Op::Index(lo, hi, size) => self.index(lo, hi, size, line),
            Op::Deref => self.deref(line),
            Op::Load(e) => self.load(e),
            Op::Store(e) => self.store(e),
            Op::LoadRef => self.load_reference(),
            Op::StoreRef => self.store_reference(),
            Op::Copy(bytes) => self.copy(bytes),
            Op::Add(e) => self.add(e),
            Op::Sub(e) => self.subtract(e),
            Op::Mul(e) => self.multiply(e),
            Op::Div(e) => self.divide(e, line),
            Op::Mod(e) => self.modulo(e, line),
            Op::Neg(e) => self.negate(e),
            Op::AddC(e) => self.add_with_carry(e),
            Op::Eq => self.equal(),
            Op::Ne => self.unequal(),
            Op::Lt => self.less(),
            Op::Le => self.less_or_equal(),
            Op::Gt => self.greater(),
            Op::Ge => self.greater_or_equal(),
            Op::Same => self.same(),
            Op::And(e) => self.and(e),
            Op::Or(e) => self.or(e),
            Op::Xor(e) => self.exclusive_or(e),
            Op::Not(e) => self.complement(e),
            Op::Conv(from, to) => self.convert_number(from, to),
            Op::NoZero => self.ask_not_zero(line),
            Op::Jump(to) => self.jump(to),
            Op::JumpF(to) => self.jump_if_false(to),
            Op::Tick => self.spend(line),
            Op::Call(routine, n) => self.call(code, routine, n, line),
            Op::CallM(target, slot, n) => self.call_method(code, target, slot, n, line),
            Op::CallI(interface, method, n) => self.call_interface(
                code, interface, method, n, line,
            ),
            Op::Try(target) => self.attempt(code, target),
            Op::Now => self.push_moment(now),
            Op::Ret(_) => self.leave(),
            Op::End => self.end(),
        }
    }
}
