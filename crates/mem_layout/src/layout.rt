//! Where everything lies.

ghost use Rattle.std.specs.Prelude.{◌≡◌, ◌<◌, ℕ, None, Some, IfOk, MatchOption, length, take, map};
ghost use Rattle.st_tree.specs.declared.path.Step.TheVariants as step;
ghost use Rattle.st_tree.specs.declared.path.Path.{Path};
ghost use Rattle.st_values.specs.Program.{Program as PlainProgram};
ghost use Rattle.st_values.specs.Shape.{Shape, region_shape, shape_within};
ghost use Rattle.st_values.specs.ShapeLaws.{Unfolds};
ghost use Rattle.st_values.specs.View.{program_of, region_of};
ghost use Rattle.mem_layout.specs.store_bytes.Place as places;
ghost use Rattle.mem_layout.specs.store_bytes.Place.{size, alignment, part_place};
ghost use Rattle.mem_layout.specs.Layout.{IsSmall, HasShape, AllHaveShapes, RegionsHaveShapes, IsPlace, Begins, IsSizeOf, IsPart, told};
ghost use Rattle.mem_layout.specs.Private.Table.{AreTables, Reach, IsMeasure};
ghost use Rattle.mem_layout.specs.Private.Regions.{AreRegions};

use crate::places::{part, place};
use crate::rounds::tables_of;
use crate::sizes::{Measure, Tables, size_of};
use crate::ways::way;
use mem_image::At;
use plc_text::{Items, NoMemory};
use st_tree::{Path, Program, RegionDecl, SeenProgram, Step};
use st_types::StType;
use std::alloc::Global;
use std::marker::Model;

/// Steps of containment that types may have, and one more.
const DEPTH: u32 = 65;

/// A region: its type, and how many bytes it has.
#[derive(Drop)]
pub struct Region {
    pub kind: StType,
    pub size: u32,
}

/// Where the values of a program lie in the images of its regions. Contracts see a layout as the program that it is of.
#[derive(Drop)]
pub struct Layout {
    of: SeenProgram,
    tables: Tables,
    regions: Items<Region>,
}

impl Model for Layout {
    ghost use Rattle.st_tree.specs.declared.program.Program.{Program};

    ghost Value = { Program };

    ghost use Rattle.st_tree.specs.contracts.program.Program as program_type;

    ghost coded = { program_type.the_row.coded };

    ghost use Rattle.st_values.specs.View.{program_of};
    ghost use Rattle.mem_layout.specs.Private.Regions.{IsLayout};

    ghost view = { λ l. l.of.value };

    ghost invariant = { λ l. IsLayout (program_of l.of.value) l.tables l.regions };
}

/// Size and alignment of a type that has a shape.
fn measure(tables: &Tables, kind: &StType) -> Measure
    ensures { (p : PlainProgram) (n : ℕ) (sh : Shape) → AreTables p tables.now → Reach p n tables.now → shape_within p n kind.now ≡ Some sh → IsSmall sh → IsMeasure sh result }
{
    match size_of(tables, kind) {
        Some(measure) => measure,
        None => Measure {
            size: 0,
            alignment: 1,
        },
    }
}

/// The regions with their sizes.
fn regions_of(
    alloc: Global,
    tables: &Tables,
    decls: &[RegionDecl],
) -> Result<Items<Region>, NoMemory>
    ensures { IfOk result (λ regions. (p : PlainProgram) → AreTables p tables.now → Reach p 65 tables.now → AllHaveShapes p (map region_of decls.now) → AreRegions p (map region_of decls.now) regions) }
{
    let mut regions = Items::new(alloc);
    for decl in decls {
        let size = measure(tables, &decl.kind).size;
        let kind = decl.kind.copy(alloc)?;
        regions.push(Region { kind, size })?;
    }
    Ok(regions)
}

impl Layout {
    /// The layout of a program. What it tells of regions it tells of a program whose regions have types that unfold, to fewer
    /// than 2^32 bytes each, as each does that is accepted. The tables take time and memory linear in the variables that its
    /// classes have, with those of their bases.
    pub fn build(alloc: Global, p: &Program) -> Result<Layout, NoMemory>
        ensures { IfOk result (λ layout. layout ≡ p.now) }
    {
        let tables = tables_of(alloc, p)?;
        let regions = regions_of(alloc, &tables, p.regions.as_slice())?;
        Ok(Layout {
            of: SeenProgram::of(p),
            tables,
            regions,
        })
    }

    /// How many bytes a region has, by the table of sizes.
    pub fn bytes_of(&self, region: u32) -> u32
        ensures { RegionsHaveShapes (program_of self.now) → region < length self.now.regions → IsSizeOf (program_of self.now) region result }
    {
        match self.regions.get(region as usize) {
            Some(row) => row.size,
            None => 0,
        }
    }

    /// Where the value lies to which a path leads. None where the program has no such path.
    pub fn place_of(&self, path: &Path) -> Option<At>
        ensures { RegionsHaveShapes (program_of self.now) → MatchOption result (places.place_of (region_shape (program_of self.now)) path.now ≡ None) (λ at. IsPlace (program_of self.now) path.now at) }
    {
        let region = self.regions.get(path.region as usize)?;
        let offset = place(&self.tables, &region.kind, path.steps.as_slice())?;
        Some(At {
            region: path.region,
            offset,
        })
    }

    /// The path of the instance, or of the value that is neither an array nor a structure, that begins at a place. None where
    /// nothing does. It goes down the types, so it takes time by the depth of the path, and by the fields of a type as their
    /// logarithm.
    pub fn path_of(&self, alloc: Global, at: At) -> Result<Option<Path>, NoMemory>
        ensures { RegionsHaveShapes (program_of self.now) → IfOk result (λ o. MatchOption o ((q : Path) → Begins (program_of self.now) at q → ⊥) (λ q. Begins (program_of self.now) at q)) }
    {
        let Some(region) = self.regions.get(at.region as usize) else {
            return Ok(None);
        };
        match way(alloc, &self.tables, &region.kind, DEPTH, at.offset)? {
            Some(steps) => Ok(Some(Path {
                region: at.region,
                steps,
            })),
            None => Ok(None),
        }
    }

    /// How many bytes a value of a type has, by the table of sizes.
    pub fn size_of(&self, kind: &StType) -> u32
        ensures { HasShape (program_of self.now) kind.now → (sh : Shape) → Unfolds (program_of self.now) kind.now sh → result ≡ size sh }
    {
        measure(&self.tables, kind).size
    }

    /// To which multiples a value of a type is aligned, by the table of sizes.
    pub fn alignment_of(&self, kind: &StType) -> u32
        ensures { HasShape (program_of self.now) kind.now → (sh : Shape) → Unfolds (program_of self.now) kind.now sh → result ≡ alignment sh }
    {
        measure(&self.tables, kind).alignment
    }

    /// How many bytes from the beginning a field of a structure or an instance lies, and its type. None where there is no
    /// such field.
    pub fn field_of<'a>(&'a self, kind: &'a StType, field: u32) -> Option<(u32, &'a StType)>
        ensures { HasShape (program_of self.now) kind.now → (sh : Shape) → Unfolds (program_of self.now) kind.now sh → IsPart (program_of self.now) (told result) (part_place sh (step.Field field)) }
    {
        part(&self.tables, kind, &Step::Field(field))
    }
}
