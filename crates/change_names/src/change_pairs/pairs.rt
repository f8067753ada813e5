//! Pairs of names, with tables to look them up.

ghost use Rattle.std.specs.Prelude.{◌≡◌, IfOk, option_map};
ghost use Rattle.st_change.specs.From as words;
ghost use Rattle.change_names.specs.change_pairs.Pairs.{pairs_of};
ghost use Rattle.change_names.specs.change_pairs.Places.{found_in};
ghost use Rattle.change_names.specs.change_pairs.Private.Variables.{from_at, is_at, named_at, unless_by};

use crate::change_pairs::places::{Places, pair_places, place_of, source_places};
use crate::change_pairs::sources::Pair;
use plc_text::{NoMemory, Text};
use std::alloc::Global;
use std::marker::Model;

/// The variables of a class, a structure or a program with their old names. A contract sees the list of pairs.
#[derive(Drop)]
pub struct PairTable<'p> {
    pairs: Vec<Pair<'p>>,
    names: Places,
    sources: Places,
}

impl<'p> Model for PairTable<'p> {
    ghost use Rattle.std.specs.Prelude.{ℕ, List, Option};
    ghost use Rattle.std.specs.Coded.{coded_list, coded_option, coded×, coded_ℕ};

    ghost Value = { List (List ℕ × Option (List ℕ)) };

    ghost coded = { coded_list (coded× (coded_list coded_ℕ) (coded_option (coded_list coded_ℕ))) };

    ghost use Rattle.change_names.specs.change_pairs.Pairs.{pairs_of};
    ghost use Rattle.change_names.specs.change_pairs.Private.Variables.{AreTables};

    ghost view = { λ t. pairs_of t.pairs.items };

    ghost invariant = { λ t. AreTables t.pairs.items t.names t.sources };
}

/// What the pair at a place comes from.
fn from_at<'p>(pairs: &[Pair<'p>], place: u32) -> Option<&'p Text>
    ensures { option_map (λ t. t.now) result ≡ from_at pairs.now place }
{
    match pairs.get(place as usize) {
        Some(pair) => pair.from,
        None => None,
    }
}

/// The name of the pair at a place.
fn name_at<'p>(pairs: &[Pair<'p>], place: u32) -> Option<&'p Text>
    ensures { option_map (λ t. t.now) result ≡ named_at pairs.now place }
{
    match pairs.get(place as usize) {
        Some(pair) => Some(pair.name),
        None => None,
    }
}

/// Whether the last that comes from an old name stands at a place.
fn is_last(sources: &Places, old: &Text, place: u32) -> bool
    ensures { result ≡ is_at (found_in sources.now old.now) place }
{
    match place_of(sources, old) {
        Some(last) => last == place,
        None => false,
    }
}

/// An old name, unless something later comes from it.
fn unless_later<'p>(sources: &Places, old: Option<&'p Text>, place: u32) -> Option<&'p Text>
    ensures { option_map (λ t. t.now) result ≡ unless_by (found_in sources.now) (option_map (λ t. t.now) old.entry) place }
{
    match old {
        Some(old) => {
            if is_last(sources, old, place) {
                Some(old)
            } else {
                None
            }
        }
        None => None,
    }
}

impl<'p> PairTable<'p> {
    /// The table of these pairs.
    pub fn build(alloc: Global, pairs: Vec<Pair<'p>>) -> Result<PairTable<'p>, NoMemory>
        ensures { IfOk result (λ table. table ≡ pairs_of pairs.entry.items) }
    {
        let names = pair_places(alloc, &pairs)?;
        let sources = source_places(alloc, &pairs)?;
        Ok(PairTable {
            pairs,
            names,
            sources,
        })
    }

    /// The old name of a new one.
    pub fn old_name(&self, name: &Text) -> Option<&'p Text>
        ensures { option_map (λ t. t.now) result ≡ words.old_name self.now name.now }
    {
        match place_of(&self.names, name) {
            Some(place) => unless_later(&self.sources, from_at(&self.pairs, place), place),
            None => None,
        }
    }

    /// The new name of an old one.
    pub fn new_name(&self, old: &Text) -> Option<&'p Text>
        ensures { option_map (λ t. t.now) result ≡ words.new_name self.now old.now }
    {
        match place_of(&self.sources, old) {
            Some(place) => name_at(&self.pairs, place),
            None => None,
        }
    }
}
