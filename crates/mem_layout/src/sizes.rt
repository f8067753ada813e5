//! Sizes and alignments of types, by tables of what is laid out.

ghost use Rattle.std.specs.Prelude.{◌≡◌, ◌+◌, ◌*◌, ◌<◌, ℕ, Bool, IfSome, IsSome, Some, slice_get};
ghost use Rattle.st_values.specs.Program.{Program};
ghost use Rattle.st_values.specs.Shape.{Shape, extent, shape_within};
ghost use Rattle.mem_layout.specs.store_bytes.Place.{gap};
ghost use Rattle.mem_layout.specs.Layout.{IsSmall};
ghost use Rattle.mem_layout.specs.Private.Table.{AreTables, Reach, IsMeasure, list_of};
ghost use Rattle.mem_layout.specs.declared.sizes.Entry.{Entry};

use plc_text::Items;
use st_types::StType;

/// How many bytes something takes, and to which multiples it is aligned.
#[derive(Clone, Copy, Debug, PartialEq, Eq)]
pub struct Measure {
    pub size: u32,
    pub alignment: u32,
}

/// A field: how many bytes from the beginning it lies, and its type.
#[derive(Drop)]
pub struct Field {
    pub offset: u32,
    pub kind: StType,
}

/// A structure or a class that is laid out.
#[derive(Drop)]
pub struct Entry {
    pub fields: Items<Field>,
    pub measure: Measure,
}

/// The structures by the numbers of their types, and the classes and programs by theirs, as far as they are laid out.
#[derive(Drop)]
pub struct Tables {
    pub structures: Items<Option<Entry>>,
    pub classes: Items<Option<Entry>>,
}

/// The next multiple of the alignment, if there is one.
pub fn padded(alignment: u32, offset: u32) -> Option<u32>
    ensures sound { IfSome result (λ n. n ≡ offset + gap alignment offset) }
    ensures complete { 0 < alignment → offset + gap alignment offset < 4294967296 → IsSome result }
{
    if alignment == 0 {
        return None;
    }
    let behind = alignment - offset % alignment;
    offset.checked_add(behind % alignment)
}

/// How many indices there are from one to another, if they are not too many.
fn count(low: &i128, high: &i128) -> Option<u32>
    ensures sound { IfSome result (λ n. n ≡ extent low.now high.now) }
    ensures complete { extent low.now high.now < 4294967296 → IsSome result }
{
    let low = *low;
    let high = *high;
    if high < low {
        return Some(0);
    }
    match high.checked_sub(low) {
        Some(more) if more < 0xffff_ffff => Some(more as u32 + 1),
        _ => None,
    }
}

/// How many bytes an array takes, if they are not too many. Of what takes none there may be any number.
#[tactic(auto, using(crate::proofs::SizeLaws::few, crate::proofs::SizeLaws::none))]
fn array_size(low: &i128, high: &i128, element: u32) -> Option<u32>
    ensures sound { IfSome result (λ n. n ≡ extent low.now high.now * element) }
    ensures complete { extent low.now high.now * element < 4294967296 → IsSome result }
{
    if element == 0 {
        return Some(0);
    }
    count(low, high)?.checked_mul(element)
}

/// The classes, or the structures.
pub fn list(tables: &Tables, class: bool) -> &Items<Option<Entry>>
    ensures { result.now ≡ list_of tables.now class }
{
    if class {
        &tables.classes
    } else {
        &tables.structures
    }
}

/// What is laid out as the class or the structure of this number.
pub fn entry_at(tables: &Tables, class: bool, k: u32) -> Option<&Entry>
    ensures sound { IfSome result (λ e. slice_get (list_of tables.now class) k ≡ Some (Some e.now)) }
    ensures complete { (e : Entry) → slice_get (list_of tables.now class) k ≡ Some (Some e) → IsSome result }
{
    match list(tables, class).get(k as usize) {
        Some(entry) => entry.as_ref(),
        None => None,
    }
}

/// Size and alignment of the class or the structure of this number.
fn measure_of(tables: &Tables, class: bool, k: u32) -> Option<Measure>
    ensures sound { IfSome result (λ m. (e : Entry) × (slice_get (list_of tables.now class) k ≡ Some (Some e)) × (m ≡ e.measure)) }
    ensures complete { (e : Entry) → slice_get (list_of tables.now class) k ≡ Some (Some e) → IsSome result }
{
    match entry_at(tables, class, k) {
        Some(entry) => Some(entry.measure),
        None => None,
    }
}

/// Size and alignment of a type, if what it is made of is laid out and it is not too large.
pub fn size_of(tables: &Tables, kind: &StType) -> Option<Measure>
    ensures sound { (p : Program) (n : ℕ) (sh : Shape) → AreTables p tables.now → shape_within p n kind.now ≡ Some sh → IfSome result (λ m. IsMeasure sh m) }
    ensures complete { (p : Program) (n : ℕ) (sh : Shape) → AreTables p tables.now → Reach p n tables.now → shape_within p n kind.now ≡ Some sh → IsSmall sh → IsSome result }
{
    match kind {
        StType::Elementary(e) => Some(Measure {
            size: e.bytes(),
            alignment: e.bytes(),
        }),
        StType::Enumeration(_) => Some(Measure {
            size: 4,
            alignment: 4,
        }),
        StType::Reference(_) => Some(Measure {
            size: 8,
            alignment: 8,
        }),
        StType::Interface(_) => Some(Measure {
            size: 8,
            alignment: 8,
        }),
        StType::Structure(k) => measure_of(tables, false, *k),
        StType::Instance(k) => measure_of(tables, true, *k),
        StType::Array(low, high, of) => {
            let element = size_of(tables, of.get())?;
            let size = array_size(low, high, element.size)?;
            Some(Measure {
                size,
                alignment: element.alignment,
            })
        }
    }
}
