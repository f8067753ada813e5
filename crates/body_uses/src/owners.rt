//! Who owns the places that are changed.

ghost use Rattle.std.specs.Prelude.{◌≡◌, ◌++◌, option_map, OnOk};
ghost use Rattle.st_tree.specs.Expression.{selectors_of};
ghost use Rattle.st_meaning.specs.Place.{root_note};
ghost use Rattle.st_meaning.specs.st_frame.Use as words;
ghost use Rattle.body_uses.specs.Uses.{uses_of};
ghost use Rattle.body_uses.specs.Private.Uses.{owner_if};

use crate::places::{is_followed, root_note, selector_note};
use crate::uses::{Owner, Use};
use plc_text::NoMemory;
use st_tree::{Note, Root, Selector, Target};

fn named_region<'p>(target: Target) -> Option<Owner<'p>>
    ensures { owner_if result ≡ words.named_region target }
{
    match target {
        Target::Region(region) => Some(Owner::Region(region)),
        _ => None,
    }
}

/// A local, THIS and SUPER have no owner: who bound the local or called the routine has.
fn root_owner<'p>(root: &'p Root<Note>) -> Option<Owner<'p>>
    ensures { owner_if result ≡ words.root_owner root.now }
{
    match root {
        Root::Name(note, _) => named_region(note.target),
        Root::This(_) => None,
        Root::Super(_) => None,
    }
}

/// The type of the last reference or interface value that a place passes, or else the global with which it begins.
fn owner_along<'p>(root: &'p Root<Note>, selectors: &'p [Selector<Note>]) -> Option<Owner<'p>>
    ensures { owner_if result ≡ words.owner_along (words.root_owner root.now) (root_note root.now).kind (selectors_of selectors.now) }
{
    let mut owner = root_owner(root);
    let mut kind = &root_note(root).kind;
    for selector in selectors {
        if is_followed(kind, selector) {
            owner = Some(Owner::Instances(kind));
        }
        kind = &selector_note(selector).kind;
    }
    owner
}

fn add_owner<'p>(uses: &mut Vec<Use<'p>>, owner: Option<Owner<'p>>) -> Result<(), NoMemory>
    ensures { OnOk result (uses_of uses.new.items ≡ uses_of uses.old.items ++ words.changed (owner_if owner.entry)) }
{
    if let Some(owner) = owner {
        uses.push(Use::Changes(owner))?;
    }
    Ok(())
}

/// Adds that the owner of a place is changed.
pub fn add_changed<'p>(
    uses: &mut Vec<Use<'p>>,
    root: &'p Root<Note>,
    selectors: &'p [Selector<Note>],
) -> Result<(), NoMemory>
    ensures { OnOk result (uses_of uses.new.items ≡ uses_of uses.old.items ++ words.owner_uses root.now (selectors_of selectors.now)) }
{
    let owner = owner_along(root, selectors);
    add_owner(uses, owner)
}

/// Adds that the region that a name means is changed, where it means one.
pub fn add_counted(uses: &mut Vec<Use<'_>>, target: Target) -> Result<(), NoMemory>
    ensures { OnOk result (uses_of uses.new.items ≡ uses_of uses.old.items ++ words.changed (words.named_region target)) }
{
    add_owner(uses, named_region(target))
}
