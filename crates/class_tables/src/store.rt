//! Maps from the numbers of names to methods, that classes share with their bases.

ghost use Rattle.std.specs.Prelude.{◌≡◌, ◌≤◌, ◌^◌, IfOk};
ghost use Rattle.class_tables.specs.Private.Store as store;
ghost use Rattle.class_tables.specs.Private.Store.{IsEntryMap, IsNumberMap, Grows, PutsEntry, PutsNumber, HasEmptyMap};

use crate::maps::{Node, put, value_at};
use plc_text::NoMemory;
use st_rules::MethodId;
use std::alloc::Global;

/// The method that a name means.
#[derive(Clone, Copy)]
pub struct Entry {
    pub id: MethodId,
    pub slot: u32,
    pub is_abstract: bool,
}

/// Maps of so many levels, whose values stand for entries: 0 for none, and each other for the entry at the place before. In maps of
/// numbers the values are 1.
#[derive(Drop)]
pub struct Store {
    nodes: Vec<Node>,
    levels: u32,
    entries: Vec<Entry>,
}

/// So many levels that maps have the keys below `count`.
fn levels(count: u32) -> u32
    ensures { count ≤ 4 ^ result }
{
    if count <= 16 {
        2
    } else if count <= 256 {
        4
    } else if count <= 4_096 {
        6
    } else if count <= 65_536 {
        8
    } else if count <= 16_777_216 {
        12
    } else {
        16
    }
}

impl Store {
    /// A store for maps with keys below `count`, with the empty map 0.
    pub fn new(alloc: Global, count: u32) -> Result<Store, NoMemory>
        ensures empty { IfOk result HasEmptyMap }
        ensures fits { IfOk result (λ s. count ≤ 4 ^ s.levels) }
    {
        let mut nodes: Vec<Node> = Vec::new(alloc);
        nodes.push([0, 0, 0, 0])?;
        Ok(Store {
            nodes,
            levels: levels(count),
            entries: Vec::new(alloc),
        })
    }

    /// What a map has at a key.
    pub fn entry(&self, map: u32, key: u32) -> Option<Entry>
        ensures { result ≡ store.entry_of self.now map key }
    {
        let value = value_at(&self.nodes, self.levels, map, key);
        if value == 0 {
            return None;
        }
        self.entries.get(value as usize - 1).copied()
    }

    /// Whether a map of numbers has the number.
    pub fn has(&self, map: u32, number: u32) -> bool
        ensures { result ≡ store.is_in self.now map number }
    {
        value_at(&self.nodes, self.levels, map, number) != 0
    }

    /// The map with the entry at the key, and all else as in the given map.
    pub fn put_entry(&mut self, map: u32, key: u32, entry: Entry) -> Result<u32, NoMemory>
        requires { IsEntryMap self.old map }
        ensures grows { Grows self.old self.new }
        ensures puts { IfOk result (λ made. PutsEntry self.old self.new map key entry made) }
    {
        let count = self.entries.len();
        if count >= u32::MAX as usize {
            return Err(NoMemory);
        }
        self.entries.push(entry)?;
        let made = put(&mut self.nodes, self.levels, map, key, count as u32 + 1)?;
        Ok(made)
    }

    /// The map with the number, and all else as in the given map.
    pub fn put_number(&mut self, map: u32, number: u32) -> Result<u32, NoMemory>
        requires { IsNumberMap self.old map }
        ensures grows { Grows self.old self.new }
        ensures puts { IfOk result (λ made. PutsNumber self.old self.new map number made) }
    {
        let made = put(&mut self.nodes, self.levels, map, number, 1)?;
        Ok(made)
    }
}
