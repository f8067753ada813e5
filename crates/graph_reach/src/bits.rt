//! Rows of bits, 64 in a word.

ghost use Rattle.std.specs.Prelude.{◌≡◌, ◌||◌, ◌<◌, ◌≤◌, ◌*◌, ℕ, [], false, nat_eq, length, replicate, IfOk};
ghost use Rattle.graph_reach.specs.Bits.{has_bit};
ghost use Rattle.graph_reach.specs.Private.Joins.{Joins};

use plc_text::NoMemory;
use std::alloc::Global;
use std::marker::Model;

/// A row of bits, which contracts see as the list of its words.
#[derive(Drop)]
pub struct Row {
    words: Vec<u64>,
}

impl Model for Row {
    ghost use Rattle.std.specs.Prelude.{ℕ, List};

    ghost Value = { List ℕ };

    ghost view = { λ r. r.words.items };
}

impl Row {
    /// A row with no bits, which takes no memory.
    pub(crate) fn none(alloc: Global) -> Row
        ensures { result ≡ [] }
    {
        Row {
            words: Vec::new(alloc),
        }
    }

    /// A row of so many words, with no bit set.
    pub(crate) fn clear(alloc: Global, words: usize) -> Result<Row, NoMemory>
        ensures { IfOk result (λ r. r ≡ replicate words 0) }
    {
        Ok(Row {
            words: vec![in alloc; 0u64; words]?,
        })
    }

    /// Whether the bit is set; it is not where the row has no such bit.
    pub fn has(&self, bit: usize) -> bool
        ensures { result ≡ has_bit self.now bit }
    {
        has_bit(&self.words, bit)
    }

    /// Sets the bit.
    pub(crate) fn set(&mut self, bit: usize)
        requires { bit < 64 * length self.old }
        ensures bits { (j : ℕ) → has_bit self.new j ≡ (has_bit self.old j || nat_eq j bit) }
        ensures long { length self.new ≡ length self.old }
    {
        set_bit(&mut self.words, bit);
    }

    /// Sets the bits that the other row has; whether one of them is new.
    pub(crate) fn join(&mut self, from: &Row) -> bool
        requires { length from.now ≤ length self.old }
        ensures joins { Joins self.old from.now self.new }
        ensures long { length self.new ≡ length self.old }
        ensures still { result ≡ false → self.new ≡ self.old }
    {
        join(&mut self.words, &from.words)
    }
}

fn has_bit(row: &[u64], bit: usize) -> bool
    ensures { result ≡ has_bit row.now bit }
{
    match row.get(bit / 64) {
        Some(word) => (word >> (bit % 64)) & 1 == 1,
        None => false,
    }
}

fn set_bit(row: &mut [u64], bit: usize)
    requires { bit < 64 * length row.old }
    ensures { (j : ℕ) → has_bit row.new j ≡ (has_bit row.old j || nat_eq j bit) }
{
    row[bit / 64] |= 1u64 << (bit % 64);
}

fn join(row: &mut [u64], from: &[u64]) -> bool
    requires { length from.now ≤ length row.old }
    ensures joins { Joins row.old from.now row.new }
    ensures still { result ≡ false → row.new ≡ row.old }
{
    let mut changed = false;
    for (i, word) in from.iter().enumerate() {
        let joined = row[i] | word;
        if joined != row[i] {
            row[i] = joined;
            changed = true;
        }
    }
    changed
}
