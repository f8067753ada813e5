//! The operand words of a run.

ghost use Rattle.std.specs.Prelude.{◌≡◌, ◌+◌, ◌<◌, ◌≤◌, ◌∷◌, [], length, IfOk, OnOk, Some, take, drop, reverse, slice_get};
ghost use Rattle.stack_code.specs.Machine as machine;
ghost use Rattle.machine_memory.specs.Answers.{popped, called, settled};

use plc_text::NoMemory;
use stack_code::{Address, Ending, Word};
use std::alloc::Global;
use std::marker::Model;

/// Operand words in fixed room. A contract sees the words, the top first, and for how many there is room.
#[derive(Drop)]
pub struct Words {
    items: Vec<Word>,
    top: usize,
}

impl Model for Words {
    ghost use Rattle.std.specs.Prelude.{◌≤◌, length, take, reverse};
    ghost use Rattle.machine_memory.specs.Words.{Stack};

    ghost Value = { Stack };

    ghost view = { λ w. record { words = reverse (take w.top w.items.items); room = length w.items.items } };

    ghost invariant = { λ w. w.top ≤ length w.items.items };
}

impl Words {
    /// No words, with room for so many.
    pub fn new(alloc: Global, room: usize) -> Result<Words, NoMemory>
        ensures { IfOk result (λ w. w ≡ record { words = []; room = room }) }
    {
        let items = vec![in alloc; Word::Null; room]?;
        Ok(Words { items, top: 0 })
    }

    #[inline]
    pub fn clear(&mut self)
        ensures { self.new ≡ record { words = []; room = self.old.room } }
    {
        self.top = 0;
    }

    #[inline]
    pub fn push(&mut self, word: Word)
        requires { length self.old.words < self.old.room }
        ensures { self.new ≡ record { words = word ∷ self.old.words; room = self.old.room } }
    {
        self.items[self.top] = word;
        self.top += 1;
    }

    /// The word on top, of any kind.
    #[inline]
    pub fn pop(&mut self) -> Result<Word, Ending>
        ensures value { machine.any self.old.words ≡ popped result self.new.words }
        ensures room { self.new.room ≡ self.old.room }
        ensures fewer { OnOk result (length self.new.words < length self.old.words) }
    {
        if self.top == 0 {
            return Err(Ending::Broken);
        }
        self.top -= 1;
        Ok(self.items[self.top])
    }

    #[inline]
    pub fn pop_number(&mut self) -> Result<i128, Ending>
        ensures value { machine.number self.old.words ≡ popped result self.new.words }
        ensures room { self.new.room ≡ self.old.room }
        ensures fewer { OnOk result (length self.new.words < length self.old.words) }
    {
        match self.pop() {
            Ok(Word::Number(v)) => Ok(v),
            Ok(_) => Err(Ending::Broken),
            Err(e) => Err(e),
        }
    }

    /// Stuck where NULL is on top.
    #[inline]
    pub fn pop_address(&mut self) -> Result<Address, Ending>
        ensures value { machine.address self.old.words ≡ popped result self.new.words }
        ensures room { self.new.room ≡ self.old.room }
        ensures fewer { OnOk result (length self.new.words < length self.old.words) }
    {
        match self.pop() {
            Ok(Word::Address(a)) => Ok(a),
            Ok(Word::Null) => Err(Ending::Stuck),
            Ok(Word::Number(_)) => Err(Ending::Broken),
            Err(e) => Err(e),
        }
    }

    /// An address or NULL.
    #[inline]
    pub fn pop_reference(&mut self) -> Result<Word, Ending>
        ensures value { machine.reference self.old.words ≡ popped result self.new.words }
        ensures room { self.new.room ≡ self.old.room }
        ensures fewer { OnOk result (length self.new.words < length self.old.words) }
    {
        match self.pop() {
            Ok(Word::Number(_)) => Err(Ending::Broken),
            Ok(w) => Ok(w),
            Err(e) => Err(e),
        }
    }

    /// The own instance of a call, which lies below its n argument words. All of them stay.
    #[inline]
    pub fn instance(&self, n: u32) -> Result<Option<Address>, Ending>
        ensures value { machine.operands n self.now.words ≡ called result n self.now.words }
        ensures enough { OnOk result (n < length self.now.words) }
    {
        if n as usize >= self.top {
            return Err(Ending::Broken);
        }
        let at = self.top - 1 - n as usize;
        instance_in(self.items[at])
    }

    /// The i-th of the n argument words on top.
    #[inline]
    pub fn argument(&self, n: u32, i: u32) -> Word
        requires i { i < n }
        requires n { n ≤ length self.now.words }
        ensures { slice_get (reverse (take n self.now.words)) i ≡ Some result }
    {
        let at = self.top - n as usize + i as usize;
        self.items[at]
    }

    /// Takes n words away.
    #[inline]
    pub fn cut(&mut self, n: usize)
        requires { n ≤ length self.old.words }
        ensures { self.new ≡ record { words = drop n self.old.words; room = self.old.room } }
    {
        self.top -= n;
    }
}

#[inline]
fn instance_in(word: Word) -> Result<Option<Address>, Ending>
    ensures { machine.instance_in word ≡ settled result }
{
    match word {
        Word::Address(a) => Ok(Some(a)),
        Word::Null => Ok(None),
        Word::Number(_) => Err(Ending::Broken),
    }
}
