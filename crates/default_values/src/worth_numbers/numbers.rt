//! The table of worths.

ghost use Rattle.std.specs.Prelude.{◌≡◌, ◌<◌, ◌⊎◌, ℕ, [], nat_eq, IfOk};
ghost use Rattle.st_unit_rules.specs.Worth.{Worth, a_number, nothing_held, same_worth};
ghost use Rattle.default_values.specs.worth_numbers.Numbers as words;
ghost use Rattle.default_values.specs.worth_numbers.Private.Nodes as nodes;

use crate::worth_numbers::node::Node;
use indexmap::IndexSet;
use plc_text::NoMemory;
use std::alloc::Global;
use std::marker::Model;

/// Worths, each with its number. Contracts see it as the list of its nodes, which holds none twice.
pub struct WorthNumbers {
    nodes: IndexSet<Node>,
}

// By hand, so that a drop is one call: a derived one is written out wherever a `?` may need it.
impl Drop for WorthNumbers {
    fn drop(self) {
        let WorthNumbers { nodes } = self;
        drop(nodes);
    }
}

impl Model for WorthNumbers {
    ghost use Rattle.std.specs.Prelude.{List};
    ghost use Rattle.default_values.specs.declared.worth_numbers.node.Node.{Node};

    ghost Value = { List Node };

    ghost view = { λ t. t.nodes.keys };
}

/// A list of parts that is put together from its end: so many equal ones, by their number, before a list that begins with another.
#[derive(Clone, Copy, Drop)]
pub struct Listed {
    count: u128,
    first: u32,
    rest: u32,
}

impl WorthNumbers {
    /// A table without worths.
    pub fn new(alloc: Global) -> WorthNumbers
        ensures { result ≡ [] }
    {
        WorthNumbers {
            nodes: IndexSet::new(alloc),
        }
    }

    /// A law of numbers: two worths are the same exactly where their numbers are.
    pub fn worth_laws(&self)
        ensures { (v w : Worth) (a b : ℕ) → words.HasWorth self.now a v → words.HasWorth self.now b w → nat_eq a b ≡ same_worth v w }
    {
        // `len` is called for its clause that no node stands twice, which the proof cites.
        let _nodes = self.nodes.len();
    }

    /// The number of a node, which is put behind the others where it is not there.
    fn number_of(&mut self, node: Node) -> Result<u32, NoMemory>
        ensures { IfOk result (λ k. nodes.Puts self.old self.new k node) }
    {
        let (place, _) = self.nodes.insert_full(node)?;
        match u32::try_from(place) {
            Ok(number) => Ok(number),
            Err(_) => Err(NoMemory),
        }
    }

    /// The worth of an elementary value or an enumerator.
    pub fn number(&mut self, value: i128) -> Result<u32, NoMemory>
        ensures { IfOk result (λ k. words.Gives self.old self.new k (a_number value)) }
    {
        let number = self.number_of(Node::Number(value))?;
        Ok(number)
    }

    /// The worth of a reference or an interface value.
    pub fn held(&mut self) -> Result<u32, NoMemory>
        ensures { IfOk result (λ k. words.Gives self.old self.new k nothing_held) }
    {
        let number = self.number_of(Node::Held)?;
        Ok(number)
    }

    /// A list without parts.
    pub fn no_parts(&mut self) -> Result<Listed, NoMemory>
        ensures { IfOk result (λ l. words.GivesEmpty self.old self.new l) }
    {
        let rest = self.number_of(Node::End)?;
        Ok(Listed {
            count: 0,
            first: 0,
            rest,
        })
    }

    /// The number of a list.
    fn closed(&mut self, listed: Listed) -> Result<u32, NoMemory>
        ensures { IfOk result (λ k. nodes.Closes self.old self.new listed k) }
    {
        if listed.count == 0 {
            return Ok(listed.rest);
        }
        let number = self.number_of(Node::Run(listed.count, listed.first, listed.rest))?;
        Ok(number)
    }

    /// The list that begins with another part.
    fn begun(&mut self, count: u128, first: u32, behind: Listed) -> Result<Listed, NoMemory>
        requires some { 0 < count }
        requires apart { behind.count ≡ 0 ⊎ (first ≡ behind.first → ⊥) }
        ensures { IfOk result (λ l. nodes.Longer self.old self.new count first behind l) }
    {
        let rest = self.closed(behind)?;
        Ok(Listed { count, first, rest })
    }

    /// The list with so many equal parts before it.
    pub fn put_before(
        &mut self,
        count: u128,
        first: u32,
        behind: Listed,
    ) -> Result<Listed, NoMemory>
        ensures { IfOk result (λ l. words.GivesLonger self.old self.new count first behind l) }
    {
        if count == 0 {
            return Ok(behind);
        }
        if behind.count == 0 || behind.first != first {
            let listed = self.begun(count, first, behind)?;
            return Ok(listed);
        }
        match behind.count.checked_add(count) {
            Some(count) => Ok(Listed { count, ..behind }),
            None => Err(NoMemory),
        }
    }

    /// The worth of an array or a structure with these parts.
    pub fn whole(&mut self, listed: Listed) -> Result<u32, NoMemory>
        ensures { IfOk result (λ k. words.GivesWhole self.old self.new listed k) }
    {
        let list = self.closed(listed)?;
        let number = self.number_of(Node::Parts(list))?;
        Ok(number)
    }
}
