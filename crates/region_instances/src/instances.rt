//! Which regions hold instances of which classes.

ghost use Rattle.std.specs.Prelude.{◌≡◌, ◌+◌, ◌≤◌, map, length, IfOk};
ghost use Rattle.std.specs.Bool.{Decides};
ghost use Rattle.graph_reach.specs.Reach.{AreReached};
ghost use Rattle.program_tables.specs.st_initial.Members.{Holds};
ghost use Rattle.st_values.specs.View.{program_of};
ghost use Rattle.region_instances.specs.Instances.{HoldsInstance, RegionsUnfold};
ghost use Rattle.region_instances.specs.Private.Graph as words;
ghost use Rattle.region_instances.specs.Private.Instances as found;
ghost use Rattle.region_instances.specs.Private.Instances.{AreRows};

use crate::graph::graph;
use crate::held::{Counts, node_of};
use graph_reach::{Row, find_reached};
use plc_text::{Items, NoMemory, narrowed};
use program_tables::{Members, members_of};
use st_tree::{Program, RegionDecl, SeenProgram};
use std::alloc::Global;
use std::marker::Model;

/// What regions hold, which contracts see as the program.
pub struct RegionInstances {
    of: SeenProgram,
    counts: Counts,
    /// To which classes each node of the graph leads.
    rows: Vec<Row>,
    /// The node of what each region is.
    nodes: Items<Option<u32>>,
}

// By hand, so that a drop is one call: a derived one is written out wherever a `?` may need it, and a proof goes over each part.
impl Drop for RegionInstances {
    fn drop(self) {
        let RegionInstances {
            of,
            counts,
            rows,
            nodes,
        } = self;
        drop(of);
        drop(counts);
        drop(rows);
        drop(nodes);
    }
}

impl Model for RegionInstances {
    ghost use Rattle.st_tree.specs.declared.program.Program.{Program};

    ghost Value = { Program };

    ghost use Rattle.st_tree.specs.contracts.program.Program as program_type;

    ghost coded = { program_type.the_row.coded };

    ghost use Rattle.region_instances.specs.Private.Instances.{AreRows};

    ghost view = { λ x. x.of.value };

    ghost invariant = { λ x. AreRows x.of.value x.counts x.rows.items x.nodes };
}

/// How many nodes there are; their numbers have 32 bits.
fn counts(classes: usize, structures: usize) -> Result<Counts, NoMemory>
    ensures classes { IfOk result (λ c. c.classes ≡ classes) }
    ensures structures { IfOk result (λ c. c.structures ≡ structures) }
    ensures room { IfOk result (λ c. c.classes + c.structures ≤ 4294967295) }
{
    let classes = narrowed(classes)?;
    let structures = narrowed(structures)?;
    match classes.checked_add(structures) {
        Some(_) => Ok(Counts {
            classes,
            structures,
        }),
        None => Err(NoMemory),
    }
}

/// To which classes each node of the graph leads.
fn reached_by(alloc: Global, counts: Counts, members: &Members<'_>) -> Result<Vec<Row>, NoMemory>
    requires room { counts.classes + counts.structures ≤ 4294967295 }
    requires classes { counts.classes ≡ length members.now.classes }
    requires structures { counts.structures ≡ length members.now.structures }
    ensures { IfOk result (λ rows. AreReached (words.lists_of counts members.now) counts.classes rows.items) }
{
    let lists = graph(alloc, counts, members)?;
    let rows = find_reached(alloc, &lists, members.classes.len())?;
    Ok(rows)
}

/// The node of what each region is.
fn region_nodes(
    alloc: Global,
    counts: Counts,
    regions: &[RegionDecl],
) -> Result<Items<Option<u32>>, NoMemory>
    requires { counts.classes + counts.structures ≤ 4294967295 }
    ensures { IfOk result (λ nodes. nodes ≡ map (found.region_node counts) regions.now) }
{
    let mut nodes = Items::new(alloc);
    for region in regions {
        nodes.push(node_of(counts, &region.kind))?;
    }
    Ok(nodes)
}

/// Whether the node leads to the class.
fn leads(rows: &[Row], node: u32, class: u32) -> bool
    ensures { result ≡ found.leads rows.now node class }
{
    match rows.get(node as usize) {
        Some(row) => row.has(class as usize),
        None => false,
    }
}

fn node_at(nodes: &[Option<u32>], region: u32) -> Option<u32>
    ensures { result ≡ found.node_at nodes.now region }
{
    match nodes.get(region as usize) {
        Some(node) => *node,
        None => None,
    }
}

impl RegionInstances {
    /// What the regions of a program hold.
    pub fn build(alloc: Global, program: &Program) -> Result<RegionInstances, NoMemory>
        ensures { IfOk result (λ x. x ≡ program.now) }
    {
        let members = members_of(alloc, program)?;
        let counts = counts(members.classes.len(), members.structures.len())?;
        let rows = reached_by(alloc, counts, &members)?;
        drop(members);
        let nodes = region_nodes(alloc, counts, program.regions.as_slice())?;
        Ok(RegionInstances {
            of: SeenProgram::of(program),
            counts,
            rows,
            nodes,
        })
    }

    /// Whether a region holds an instance of just this class: is one, or has one among its elements, fields and variables, in any depth.
    /// Arrays that have no elements hold nothing. The types of the regions are to unfold, as those of each accepted program do.
    pub fn holds(&self, region: u32, class: u32) -> bool
        ensures { RegionsUnfold (program_of self.now) → Decides result (HoldsInstance (program_of self.now) region class) }
    {
        if class >= self.counts.classes {
            return false;
        }
        match node_at(self.nodes.as_slice(), region) {
            Some(node) => leads(&self.rows, node, class),
            None => false,
        }
    }
}
