//! Runs from a beginning to the end.

ghost use Rattle.std.specs.Prelude.{◌≡◌, ◌∷◌, ◌<◌, [], Some, length, take, slice_set, slice_index_or, MatchOption, IfErr};
ghost use Rattle.stack_code.specs.declared.machine.Ending.TheVariants.{Stuck};
ghost use Rattle.stack_code.specs.Machine.{exec, Gives, IsStuck, with_arguments, flag as flag_word};
ghost use Rattle.machine_memory.specs.Answers.{stored};
ghost use Rattle.cycle_machine.specs.Room.{IsRoomFor};
ghost use Rattle.cycle_machine.specs.Private.Machine.{config, capacity, IsBegun};

use crate::machine::Machine;
use machine_memory::{Locals, truth, write_argument};
use stack_code::{Address, Ending, Frame, Outcome, ValidCode, Word};

impl Machine {
    /// The state before a run of the routine on the instance, with no locals yet.
    pub fn begin(&mut self, routine: u32, own: Address, ticks: u32)
        ensures words { self.new.words ≡ record { words = []; room = self.old.words.room } }
        ensures locals { self.new.locals ≡ record { locals = []; stride = self.old.locals.stride } }
        ensures frames { self.new.frames ≡ [] }
        ensures here { self.new.here ≡ record { routine = routine; next = 0; own = Some own } }
        ensures ticks { self.new.ticks ≡ ticks }
        ensures regions { self.new.regions ≡ self.old.regions }
    {
        self.words.clear();
        self.locals.clear();
        self.frames.clear();
        self.here = Frame {
            routine,
            next: 0,
            own: Some(own),
        };
        self.ticks = ticks;
    }

    /// Runs from the beginning of a routine to the end. None where the run gets stuck.
    #[inline]
    pub fn run(&mut self, code: &ValidCode, now: u32) -> Option<Outcome>
        requires room { IsRoomFor code.now (capacity self.old) }
        requires begun { IsBegun code.now (config self.old) }
        ensures ends { MatchOption result (IsStuck (λ n. exec code.now now n (config self.old))) (λ outcome. Gives (λ n. exec code.now now n (config self.old)) outcome self.new.regions) }
        ensures room { self.new.words.room ≡ self.old.words.room }
        ensures stride { self.new.locals.stride ≡ self.old.locals.stride }
    {
        let routines = code.code().routines.as_slice();
        'run: loop {
            let routine = &routines[self.here.routine as usize];
            let op = routine.ops.as_slice()[self.here.next as usize];
            let line = routine.lines.as_slice()[self.here.next as usize];
            match self.step(code, now, op, line) {
                Ok(()) => {}
                Err(ending) => match ending {
                    Ending::Ended(outcome) => return Some(outcome),
                    Ending::Stuck => return None,
                    Ending::Broken => unreachable!(),
                },
            }
        }
    }
}

fn flag(holds: bool) -> Word
    ensures { result ≡ flag_word holds }
{
    Word::Number(truth(holds))
}

/// Writes as many of the flags into the locals of the call at depth 1 as its routine has arguments. Stuck where they do
/// not fit.
pub fn write_flags(flags: (bool, bool), arguments: usize, locals: &mut Locals) -> Result<(), Ending>
    requires { 1 < length locals.old.locals }
    ensures value { with_arguments 0 (take arguments (flag_word flags.0 ∷ flag_word flags.1 ∷ [])) (slice_index_or locals.old.locals 1 []) ≡ stored result (slice_index_or locals.new.locals 1 []) }
    ensures others { locals.new.locals ≡ slice_set locals.old.locals 1 (slice_index_or locals.new.locals 1 []) }
    ensures stride { locals.new.stride ≡ locals.old.stride }
    ensures stuck { IfErr result (λ e. e ≡ Stuck) }
{
    if arguments == 0 {
        return Ok(());
    }
    write_argument(flag(flags.0), 0, locals, 1)?;
    if arguments == 1 {
        return Ok(());
    }
    write_argument(flag(flags.1), 1, locals, 1)?;
    Ok(())
}
