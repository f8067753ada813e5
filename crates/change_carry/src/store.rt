//! What the regions of a store get from the store before.

ghost use Rattle.std.specs.Prelude.{◌≡◌, ◌&&◌, ◌||◌, not, ℕ, OnOk, option_map, slice_get};
ghost use Rattle.st_change.specs.Change as words;
ghost use Rattle.st_change.specs.Counterpart as counterpart;
ghost use Rattle.st_change.specs.From as from;
ghost use Rattle.st_values.specs.Value.{member};
ghost use Rattle.st_values.specs.View.{program_of, region_of};
ghost use Rattle.value_trees.specs.Value.{members_of, value_of};
ghost use Rattle.change_names.specs.change_paths.Change.{IsChange};
ghost use Rattle.change_carry.specs.Store.{is_set};
ghost use Rattle.change_carry.specs.Private.Carry.{member_by, region_by, region_carried};

use crate::carry::{carry, stays};
use change_names::Change;
use plc_text::{NoMemory, Series, narrowed};
use shape_trees::region_shape;
use st_tree::RegionDecl;
use value_trees::{Member, Value};

/// The flag of a region.
fn flag_at(flags: &[bool], region: u32) -> bool
    ensures { result ≡ is_set (slice_get flags.now region) }
{
    match flags.get(region as usize) {
        Some(flag) => *flag,
        None => false,
    }
}

/// Whether regions of this flag are meant.
fn is_meant(keeping: bool, flag: bool) -> bool
    ensures { result ≡ from.same_flag keeping flag }
{
    if keeping { flag } else { !flag }
}

/// The old region that a new one comes from.
pub fn region_before(c: &Change<'_, '_>, region: u32) -> Option<u32>
    requires { IsChange c.now }
    ensures { result ≡ from.old_region (program_of c.now.old.program.now) (program_of c.now.new.program.now) region }
{
    match c.names.regions.old.get(region as usize) {
        Some(number) => *number,
        None => None,
    }
}

/// What a region of a store holds.
fn value_in(store: &Series<Member>, region: u32) -> Option<&Value>
    ensures { option_map (λ v. value_of v.now) result ≡ member (members_of store.now) region }
{
    match store.get(region as usize) {
        Some(member) => Some(&member.value),
        None => None,
    }
}

/// What a region holds gets what it comes from.
fn carry_value(
    c: &Change<'_, '_>,
    keeping: bool,
    region: u32,
    before: &Series<Member>,
    held: &mut Value,
) -> Result<(), NoMemory>
    requires { IsChange c.now }
    ensures { OnOk result (value_of held.new ≡ region_carried (program_of c.now.old.program.now) (program_of c.now.new.program.now) keeping (members_of before.now) region (value_of held.old)) }
{
    let Some(shape) = region_shape(c.new_shapes, region) else {
        return Ok(());
    };
    let Some(number) = region_before(c, region) else {
        return Ok(());
    };
    let Some(old_shape) = region_shape(c.old_shapes, number) else {
        return Ok(());
    };
    let Some(old) = value_in(before, number) else {
        return Ok(());
    };
    carry(shape, c, keeping, old_shape, old, held)
}

/// Whether a region is to get something.
pub fn is_carried(kept: &[bool], keeping: bool, region: u32, decl: &RegionDecl) -> bool
    ensures { result ≡ (from.same_flag keeping (is_set (slice_get kept.now region)) && not (decl.now.marks.init_on_change || (decl.now.marks.no_copy && not keeping))) }
{
    let is_marked = stays(decl.marks.init_on_change, decl.marks.no_copy, keeping);
    is_meant(keeping, flag_at(kept, region)) && !is_marked
}

/// The same where the region is meant and its marks let it.
fn carry_region(
    c: &Change<'_, '_>,
    kept: &[bool],
    keeping: bool,
    region: u32,
    decl: &RegionDecl,
    before: &Series<Member>,
    held: &mut Value,
) -> Result<(), NoMemory>
    requires change { IsChange c.now }
    requires are_kept { (r : ℕ) → is_set (slice_get kept.now r) ≡ counterpart.kept (program_of c.now.old.program.now) (program_of c.now.new.program.now) r }
    ensures { OnOk result (value_of held.new ≡ region_by (program_of c.now.old.program.now) (program_of c.now.new.program.now) keeping (members_of before.now) region (region_of decl.now) (value_of held.old)) }
{
    if is_carried(kept, keeping, region, decl) {
        carry_value(c, keeping, region, before, held)
    } else {
        Ok(())
    }
}

/// The same at a place of a store.
fn carry_place(
    c: &Change<'_, '_>,
    kept: &[bool],
    keeping: bool,
    region: u32,
    decl: &RegionDecl,
    before: &Series<Member>,
    held: &mut Series<Member>,
) -> Result<(), NoMemory>
    requires change { IsChange c.now }
    requires are_kept { (r : ℕ) → is_set (slice_get kept.now r) ≡ counterpart.kept (program_of c.now.old.program.now) (program_of c.now.new.program.now) r }
    ensures { OnOk result (members_of held.new ≡ member_by region (region_by (program_of c.now.old.program.now) (program_of c.now.new.program.now) keeping (members_of before.now) region (region_of decl.now)) (members_of held.old)) }
{
    match held.get_mut(region as usize) {
        Some(member) => carry_region(c, kept, keeping, region, decl, before, &mut member.value),
        None => Ok(()),
    }
}

/// The regions of a new store that are kept, or those that are not, get the values of the old regions that they come from: `held` is
/// the new store, `kept` says of each new region whether it is kept. Numbers and references are written; a variable keeps what is newly
/// there by its marks.
pub fn carry_store(
    c: &Change<'_, '_>,
    kept: &[bool],
    keeping: bool,
    before: &Series<Member>,
    held: &mut Series<Member>,
) -> Result<(), NoMemory>
    requires change { IsChange c.now }
    requires are_kept { (r : ℕ) → is_set (slice_get kept.now r) ≡ counterpart.kept (program_of c.now.old.program.now) (program_of c.now.new.program.now) r }
    ensures { OnOk result (members_of held.new ≡ words.carry_store (program_of c.now.old.program.now) (program_of c.now.new.program.now) keeping (members_of before.now) (members_of held.old)) }
{
    for (k, decl) in c.new.program.regions.as_slice().iter().enumerate() {
        let region = narrowed(k)?;
        carry_place(c, kept, keeping, region, decl, before, held)?;
    }
    Ok(())
}
