//! A list that grows at its end, one item of which can be lent to be changed.

ghost use Rattle.std.specs.Prelude.{◌≡◌, [], ◌∷◌, ◌++◌, ◌<◌, ◌↔◌, IsTrue, length, slice_get, slice_set, MatchOption, OnOk, OnErr, OnSome};
ghost use Rattle.std.specs.Option.{option_copied};

use crate::NoMemory;
use std::alloc::Global;
use std::marker::Model;

/// A list of items, which a contract sees as the list of what they are.
#[derive(Drop)]
pub struct Series<T> {
    items: Vec<T>,
}

impl<T> Model for Series<T> {
    ghost use Rattle.std.specs.Prelude.{List};
    ghost use Rattle.std.specs.Coded.{coded_list};

    ghost Value = { List T };

    ghost coded = { coded_list T.code };

    ghost view = { λ it. it.items.items };
}

impl<T> Series<T> {
    ghost use Rattle.std.specs.Borrow.{LendsIf, sem};
    ghost use Rattle.std.specs.Prelude.{option_map};
    ghost use Rattle.plc_text.specs.contracts.plc_series.series.Series.{the_row};

    /// An empty list, which takes no memory. It keeps `alloc` for what is pushed to it.
    pub fn new(alloc: Global) -> Series<T>
        ensures { result ≡ [] }
    {
        Series {
            items: Vec::new(alloc),
        }
    }

    /// The items, in order.
    pub fn as_slice(&self) -> &[T]
        ensures { result.now ≡ self.now }
    {
        self.items.as_slice()
    }

    pub fn len(&self) -> usize
        ensures { result ≡ length self.now }
    {
        self.items.len()
    }

    pub fn is_empty(&self) -> bool
        ensures { IsTrue result ↔ (self.now ≡ []) }
    {
        self.items.is_empty()
    }

    /// The item at a place.
    pub fn get(&self, at: usize) -> Option<&T>
        ensures value { option_copied result ≡ slice_get self.now at }
        ensures within { OnSome result (at < length self.now) }
    {
        self.items.get(at)
    }

    /// Lends the item at a place: what it is when the loan ends stands there then.
    pub fn get_mut(&mut self, at: usize) -> Option<&mut T>
        ensures* follows { sem 𝓛 (LendsIf (the_row T.row) T.row self.entry result (slice_set self.old at) self.old) }
        ensures item { option_map (λ x. x.now) result ≡ slice_get self.old at }
        ensures within { OnSome result (at < length self.old) }
    {
        self.items.get_mut(at)
    }

    /// Takes the last item, where there is one.
    pub fn pop(&mut self) -> Option<T>
        ensures { MatchOption result ((self.old ≡ []) × (self.new ≡ [])) (λ last. self.old ≡ self.new ++ last ∷ []) }
    {
        self.items.pop()
    }
}

impl<T: Drop> Series<T> {
    /// Adds an item at the end.
    pub fn push(&mut self, item: T) -> Result<(), NoMemory>
        ensures ok { OnOk result (self.new ≡ self.old ++ item ∷ []) }
        ensures err { OnErr result (self.new ≡ self.old) }
    {
        self.items.push(item)?;
        Ok(())
    }
}
