//! Routines by number.

ghost use Rattle.std.specs.Prelude.{◌≡◌, MatchOption, None, Some, option_and_then, slice_get};
ghost use Rattle.name_resolution.specs.Private.Routines.{method_at, prototype_at, is_block_sort, is_block};

use plc_text::Items;
use st_rules::{DeclaredClass, DeclaredRoutine, MethodId, PrototypeId};
use st_tree::ClassSort;

fn class_there(classes: &[DeclaredClass], class: u32) -> Option<&DeclaredClass>
    ensures { MatchOption result (slice_get classes.now class ≡ None) (λ c. slice_get classes.now class ≡ Some c.now) }
{
    classes.get(class as usize)
}

fn methods_there(
    interfaces: &[Items<DeclaredRoutine>],
    interface: u32,
) -> Option<&Items<DeclaredRoutine>>
    ensures { MatchOption result (slice_get interfaces.now interface ≡ None) (λ m. slice_get interfaces.now interface ≡ Some m.now) }
{
    interfaces.get(interface as usize)
}

fn routine_there(routines: &[DeclaredRoutine], number: u32) -> Option<&DeclaredRoutine>
    ensures { MatchOption result (slice_get routines.now number ≡ None) (λ r. slice_get routines.now number ≡ Some r.now) }
{
    routines.get(number as usize)
}

/// The declaration of a method.
pub fn method_at(classes: &[DeclaredClass], id: MethodId) -> Option<&DeclaredRoutine>
    ensures { MatchOption result (method_at classes.now id ≡ None) (λ r. method_at classes.now id ≡ Some r.now) }
{
    match class_there(classes, id.class) {
        Some(class) => routine_there(class.methods.as_slice(), id.method),
        None => None,
    }
}

/// The declaration of a method of an interface.
pub fn prototype_at(
    interfaces: &[Items<DeclaredRoutine>],
    id: PrototypeId,
) -> Option<&DeclaredRoutine>
    ensures { MatchOption result (prototype_at interfaces.now id ≡ None) (λ r. prototype_at interfaces.now id ≡ Some r.now) }
{
    match methods_there(interfaces, id.interface) {
        Some(methods) => routine_there(methods.as_slice(), id.method),
        None => None,
    }
}

fn is_block_sort(sort: ClassSort) -> bool
    ensures { result ≡ is_block_sort sort }
{
    matches!(sort, ClassSort::FunctionBlock)
}

/// Whether it is a function block.
pub fn is_block(classes: &[DeclaredClass], class: u32) -> bool
    ensures { result ≡ is_block classes.now class }
{
    match class_there(classes, class) {
        Some(class) => is_block_sort(class.sort),
        None => false,
    }
}
