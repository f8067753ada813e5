//! Maps from numbers to numbers that share what they have in common: a map is never changed, and putting a value makes another map.
//! A map is known by its root; many of them stand in one list of nodes, whose parts are told by two bits of the key each.

ghost use Rattle.std.specs.Prelude.{◌≡◌, ◌<◌, ◌∷◌, [], ◌++◌, length, slice_set, IfOk};
ghost use Rattle.class_tables.specs.Private.Maps.{value_at, part, IsMap, Keeps, Puts};

use plc_text::NoMemory;

/// The parts of a map: roots of the next level, or values on the last one.
pub type Node = [u32; 4];

fn push_node(nodes: &mut Vec<Node>, node: Node) -> Result<u32, NoMemory>
    ensures place { IfOk result (λ r. r ≡ length nodes.old.items) }
    ensures ok { IfOk result (λ r. nodes.new.items ≡ nodes.old.items ++ node ∷ []) }
    ensures keeps { Keeps nodes.old.items nodes.new.items }
{
    let place = nodes.len();
    if place >= u32::MAX as usize {
        return Err(NoMemory);
    }
    nodes.push(node)?;
    Ok(place as u32)
}

fn with_part(node: Node, digit: usize, value: u32) -> Node
    requires { digit < 4 }
    ensures changed { result ≡ slice_set node digit value }
    ensures long { length node ≡ 4 }
{
    let mut changed = node;
    changed[digit] = value;
    changed
}

/// The value at the key, 0 where none was put.
pub fn value_at(nodes: &[Node], levels: u32, map: u32, key: u32) -> u32
    ensures { result ≡ value_at nodes.now levels map key }
{
    let mut root = map;
    let mut rest = key;
    'levels: for _level in 0..levels {
        root = part(nodes, root, rest % 4);
        rest /= 4;
    }
    root
}

fn part(nodes: &[Node], root: u32, digit: u32) -> u32
    requires { digit < 4 }
    ensures { result ≡ part nodes.now root digit }
{
    match nodes.get(root as usize) {
        Some(node) => node[digit as usize],
        None => 0,
    }
}

/// The map with the value at the key, and all else as in the given map.
pub fn put(
    nodes: &mut Vec<Node>,
    levels: u32,
    map: u32,
    key: u32,
    value: u32,
) -> Result<u32, NoMemory>
    requires { IsMap nodes.old.items levels map }
    ensures ok { IfOk result (λ made. Puts nodes.old.items nodes.new.items levels map key value made) }
    ensures keeps { Keeps nodes.old.items nodes.new.items }
{
    if levels == 0 {
        return Ok(value);
    }
    let node = nodes[map as usize];
    let digit = (key % 4) as usize;
    let below = put(nodes, levels - 1, node[digit], key / 4, value)?;
    let made = push_node(nodes, with_part(node, digit, below))?;
    Ok(made)
}
