//! Tables of distinct names, in the order of adding.

ghost use Rattle.std.specs.Prelude.{◌≡◌, ◌<◌, ◌^◌, ◌↔◌, [], ◌∷◌, ◌++◌, length, IsTrue, IfOk, IfErr, OnErr, MatchOption};
ghost use Rattle.std.specs.Map.Iter.{ShowsInOrder, deref_pair};
ghost use Rattle.st_names.specs.Names.{IsAt, IsValueAt, HasName, IsPairOf, AreDistinct, IsRefusal};

use crate::add_error::AddError;
use indexmap::IndexMap;
use indexmap::map::Iter;
use plc_text::Text;
use std::alloc::Global;
use std::marker::Model;

/// A table of names: pairs of a name and a value in the order in which they were added, with no name
/// twice. A contract sees it as the list of its pairs. Look-ups go by hash.
///
/// Names are the same where their bytes are. Where letter case does not matter, as in IEC 61131-3,
/// callers pass `Text::folded` to each call.
#[derive(Debug, Drop)]
pub struct Names<V> {
    pairs: IndexMap<Text, V>,
}

impl<V> Model for Names<V> {
    ghost use Rattle.std.specs.Prelude.{ℕ, List, ◌^◌, ◌<◌, length};
    ghost use Rattle.std.specs.Coded.{coded_list, coded×, coded_ℕ};

    ghost Value = { List (List ℕ × V) };

    ghost coded = { coded_list (coded× (coded_list coded_ℕ) V.code) };

    ghost view = { λ t. t.pairs.entries };

    ghost invariant = { λ t. length t.pairs.entries < 2 ^ 32 };
}

impl<V> Names<V> {
    /// An empty table, which takes no memory. It keeps `alloc` for what is added to it.
    pub fn new(alloc: Global) -> Names<V>
        ensures { result ≡ [] }
    {
        Names {
            pairs: IndexMap::new(alloc),
        }
    }

    /// The number of names.
    pub fn len(&self) -> u32
        ensures len { result ≡ length self.now }
        ensures distinct { AreDistinct self.now }
    {
        self.pairs.len() as u32
    }

    pub fn is_empty(&self) -> bool
        ensures { IsTrue result ↔ (self.now ≡ []) }
    {
        self.pairs.is_empty()
    }

    /// The place of the name, from 0 in the order of adding.
    pub fn find(&self, key: &Text) -> Option<u32>
        ensures place { MatchOption result (HasName self.now key.now → ⊥) (λ n. IsAt self.now n key.now) }
        ensures distinct { AreDistinct self.now }
    {
        let n = self.pairs.get_index_of(key)?;
        Some(n as u32)
    }

    /// The value of the name at the place.
    pub fn at(&self, n: u32) -> &V
        requires { n < length self.now }
        ensures { IsValueAt self.now n result.now }
    {
        &self.pairs[n as usize]
    }

    /// The name at the place.
    pub fn key(&self, n: u32) -> &Text
        requires { n < length self.now }
        ensures { IsAt self.now n result.now }
    {
        self.pairs.get_index(n as usize).unwrap().0
    }

    /// The value of the name.
    pub fn get(&self, key: &Text) -> Option<&V>
        ensures { MatchOption result (HasName self.now key.now → ⊥) (λ v. IsPairOf self.now key.now v.now) }
    {
        let n = self.find(key)?;
        Some(self.at(n))
    }

    /// The pairs, in the order of adding.
    pub fn iter(&self) -> Iter<'_, Text, V>
        ensures rest { result ≡ self.now }
        ensures runs { ShowsInOrder (deref_pair {K = Text} {X = V}) }
        ensures distinct { AreDistinct self.now }
        ensures fits { length self.now < 2 ^ 32 }
    {
        self.pairs.iter()
    }
}

impl<V: Drop> Names<V> {
    /// Adds a name that is not there, at the end, and answers its place.
    ///
    /// An error hands back the name and its value, and leaves the table as it was: `Taken` exactly
    /// where the name is there, or `NoMemory`, also where the table has 2^32 - 1 names.
    pub fn add(&mut self, key: Text, value: V) -> Result<u32, AddError<V>>
        ensures ok { IfOk result (λ n. (n ≡ length self.old) × (self.new ≡ self.old ++ (key, value) ∷ [])) }
        ensures fresh { IfOk result (λ n. HasName self.old key → ⊥) }
        ensures err { IfErr result (IsRefusal self.old key value) }
        ensures unchanged { OnErr result (self.new ≡ self.old) }
    {
        if let Some(first) = self.find(&key) {
            return Err(AddError::Taken { first, key, value });
        }
        let n = self.len();
        if n == u32::MAX {
            return Err(AddError::NoMemory { key, value });
        }
        match self.pairs.insert(key, value) {
            Ok(_) => Ok(n),
            Err(failed) => {
                let (key, value) = failed.value;
                Err(AddError::NoMemory { key, value })
            }
        }
    }
}
