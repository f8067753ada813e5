//! Sizes of types and offsets of fields, by tables, for every type.

ghost use Rattle.std.specs.Prelude.{◌≡◌, ◌*◌, ◌<◌, IfSome, IsSome, slice_get};
ghost use Rattle.codegen_tables.specs.Sizes.{field_by, fitted, kind_by, laid_field, laid_kind, laid_size, size_by};
ghost use Rattle.st_types.specs.declared.st_type.StType.TheVariants as type;
ghost use Rattle.st_values.specs.Shape.{extent};

use call_steps::class_of_kind;
use plc_text::Items;
use st_types::{Elem, StType};

/// A structure or a class: its size, where its fields lie, and the kinds of those that are numbers.
#[derive(Drop)]
pub struct Laid {
    pub size: u32,
    pub fields: Items<u32>,
    pub kinds: Items<Elem>,
}

/// The structures by the numbers of their types, and the classes and programs by theirs.
#[derive(Drop)]
pub struct Sizes {
    pub structures: Items<Laid>,
    pub classes: Items<Laid>,
}

fn count(low: &i128, high: &i128) -> Option<u32>
    ensures sound { IfSome result (λ n. n ≡ extent low.now high.now) }
    ensures complete { extent low.now high.now < 4294967296 → IsSome result }
{
    let low = *low;
    let high = *high;
    if high < low {
        return Some(0);
    }
    match high.checked_sub(low) {
        Some(more) if more < 0xffff_ffff => Some(more as u32 + 1),
        _ => None,
    }
}

/// How many bytes an array takes; 0 of one that is too large.
fn array_size(low: &i128, high: &i128, element: u32) -> u32
    ensures { result ≡ fitted (extent low.now high.now * element) }
{
    if element == 0 {
        return 0;
    }
    match count(low, high) {
        Some(n) => match n.checked_mul(element) {
            Some(size) => size,
            None => 0,
        },
        None => 0,
    }
}

fn laid_size(laid: &[Laid], n: u32) -> u32
    ensures { result ≡ laid_size (slice_get laid.now n) }
{
    match laid.get(n as usize) {
        Some(x) => x.size,
        None => 0,
    }
}

fn laid_field(laid: &[Laid], n: u32, k: u32) -> u32
    ensures { result ≡ laid_field (slice_get laid.now n) k }
{
    match laid.get(n as usize) {
        Some(x) => match x.fields.get(k as usize) {
            Some(at) => *at,
            None => 0,
        },
        None => 0,
    }
}

fn laid_kind(laid: &[Laid], n: u32, k: u32) -> Elem
    ensures { result ≡ laid_kind (slice_get laid.now n) k }
{
    match laid.get(n as usize) {
        Some(x) => match x.kinds.get(k as usize) {
            Some(kind) => *kind,
            None => Elem::Dint,
        },
        None => Elem::Dint,
    }
}

/// How many bytes a value of a type takes.
#[tactic(auto, using(crate::specs::Sizes::size_views))]
pub fn size_of(kind: &StType, sizes: &Sizes) -> u32
    ensures { result ≡ size_by sizes.now kind.now }
{
    match kind {
        StType::Elementary(e) => e.bytes(),
        StType::Enumeration(_) => 4,
        StType::Structure(n) => laid_size(sizes.structures.as_slice(), *n),
        StType::Array(low, high, of) => array_size(low, high, size_of(of.get(), sizes)),
        StType::Instance(n) => laid_size(sizes.classes.as_slice(), *n),
        StType::Reference(_) => 8,
        StType::Interface(_) => 8,
    }
}

/// Where a field of a structure, or a variable of an instance, lies.
pub fn field_of(kind: &StType, sizes: &Sizes, k: u32) -> u32
    ensures { result ≡ field_by sizes.now kind.now k }
{
    match kind {
        StType::Structure(n) => laid_field(sizes.structures.as_slice(), *n, k),
        StType::Instance(n) => laid_field(sizes.classes.as_slice(), *n, k),
        StType::Elementary(_) => 0,
        StType::Enumeration(_) => 0,
        StType::Array(_, _, _) => 0,
        StType::Reference(_) => 0,
        StType::Interface(_) => 0,
    }
}

/// Where a variable of an instance of a class lies.
pub fn variable_of(sizes: &Sizes, class: u32, k: u32) -> u32
    ensures { result ≡ field_by sizes.now (type.Instance class) k }
{
    laid_field(sizes.classes.as_slice(), class, k)
}

/// The kind of a variable of an instance that is a number.
pub fn kind_of(kind: &StType, sizes: &Sizes, k: u32) -> Elem
    ensures { result ≡ kind_by sizes.now kind.now k }
{
    laid_kind(sizes.classes.as_slice(), class_of_kind(kind), k)
}
