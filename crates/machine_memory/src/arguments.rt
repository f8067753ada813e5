//! The arguments of a call, as its first locals.

ghost use Rattle.std.specs.Prelude.{◌≡◌, ◌<◌, ◌≤◌, ◌∷◌, [], length, take, reverse, slice_set, slice_index_or, IfErr};
ghost use Rattle.stack_code.specs.declared.machine.Ending.TheVariants.{Stuck};
ghost use Rattle.stack_code.specs.Machine as machine;
ghost use Rattle.machine_memory.specs.Answers.{stored};

use crate::address::kept;
use crate::locals::Locals;
use crate::words::Words;
use st_types::Elem;
use stack_code::{Ending, Word};

/// Writes the word into the locals of the call, as its i-th argument, into its eight bytes. Stuck where they are not
/// within the locals.
#[inline]
pub fn write_argument(word: Word, i: u32, locals: &mut Locals, depth: u32) -> Result<(), Ending>
    requires depth { depth < length locals.old.locals }
    ensures value { machine.with_arguments i (word ∷ []) (slice_index_or locals.old.locals depth []) ≡ stored result (slice_index_or locals.new.locals depth []) }
    ensures others { locals.new.locals ≡ slice_set locals.old.locals depth (slice_index_or locals.new.locals depth []) }
    ensures stride { locals.new.stride ≡ locals.old.stride }
    ensures stuck { IfErr result (λ e. e ≡ Stuck) }
{
    let len = match locals.len_at(depth) {
        Some(len) => len,
        None => unreachable!(),
    };
    let v = kept(word)?;
    if 8 * i as u64 + 8 > len as u64 {
        return Err(Ending::Stuck);
    }
    locals.write(Elem::Ulint, depth, 8 * i, v);
    Ok(())
}

/// Writes the n words on top into the locals of the call, as its arguments.
#[inline]
pub fn write_arguments(words: &Words, n: u32, locals: &mut Locals, depth: u32) -> Result<(), Ending>
    requires words { n ≤ length words.now.words }
    requires depth { depth < length locals.old.locals }
    ensures value { machine.with_arguments 0 (reverse (take n words.now.words)) (slice_index_or locals.old.locals depth []) ≡ stored result (slice_index_or locals.new.locals depth []) }
    ensures others { locals.new.locals ≡ slice_set locals.old.locals depth (slice_index_or locals.new.locals depth []) }
    ensures stride { locals.new.stride ≡ locals.old.stride }
{
    'arguments: for i in 0..n {
        match write_argument(words.argument(n, i), i, locals, depth) {
            Ok(()) => {}
            Err(e) => return Err(e),
        }
    }
    Ok(())
}
