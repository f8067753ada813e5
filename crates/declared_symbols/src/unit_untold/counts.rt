//! How many variables and locals of its body each class declares by itself.

ghost use Rattle.std.specs.Prelude.{◌≡◌, ◌∷◌, [], ◌++◌, ◌+◌, map, IfOk, OnOk};
ghost use Rattle.st_unit_rules.specs.declaration_list.Written.{written_of};
ghost use Rattle.declared_symbols.specs.untold_names.Untold.{number_behind};
ghost use Rattle.declared_symbols.specs.unit_untold.Private.Counts as counts;

use plc_text::NoMemory;
use st_tree::{ClassDecl, Decl};
use st_unit_rules::declaration_list::{WrittenName, is_of_body, written_members};
use std::alloc::Global;

/// So many variables of an instance, and so many in-outs and temporary variables of a body.
#[derive(Clone, Copy)]
pub struct Counts {
    pub kept: u32,
    pub body: u32,
}

/// No variable and no local.
pub fn nothing() -> Counts
    ensures { result ≡ counts.nothing }
{
    Counts { kept: 0, body: 0 }
}

/// One more, where it counts.
fn counted(number: u32, counts: bool) -> Result<u32, NoMemory>
    ensures { IfOk result (λ n. n ≡ number_behind counts number) }
{
    if !counts {
        return Ok(number);
    }
    match number.checked_add(1) {
        Some(next) => Ok(next),
        None => Err(NoMemory),
    }
}

fn with_name(so_far: Counts, name: &WrittenName<'_>) -> Result<Counts, NoMemory>
    ensures { IfOk result (λ c. c ≡ counts.with_written so_far (written_of name.now)) }
{
    let kept = counted(so_far.kept, name.is_kept())?;
    let body = counted(so_far.body, is_of_body(name))?;
    Ok(Counts { kept, body })
}

fn count_names(names: &[WrittenName<'_>]) -> Result<Counts, NoMemory>
    ensures { IfOk result (λ c. c ≡ counts.counts_from counts.nothing (map written_of names.now)) }
{
    let mut so_far = nothing();
    for name in names {
        so_far = with_name(so_far, name)?;
    }
    Ok(so_far)
}

/// What a class declares by itself.
fn own_counts(alloc: Global, class: &ClassDecl<u32>) -> Result<Counts, NoMemory>
    ensures { IfOk result (λ c. c ≡ counts.own_counts class.now) }
{
    let names = written_members(alloc, class.members.as_slice())?;
    let counts = count_names(&names)?;
    Ok(counts)
}

fn add_own(alloc: Global, list: &mut Vec<Counts>, decl: &Decl<u32>) -> Result<(), NoMemory>
    ensures { OnOk result (list.new.items ≡ list.old.items ++ counts.own_in (decl.now ∷ [])) }
{
    match decl {
        Decl::Class(class) => {
            let own = own_counts(alloc, class)?;
            list.push(own)?;
        }
        _ => {}
    }
    Ok(())
}

/// What each class declares by itself, by its number.
pub fn all_own(alloc: Global, decls: &[Decl<u32>]) -> Result<Vec<Counts>, NoMemory>
    ensures { IfOk result (λ list. list.items ≡ counts.own_in decls.now) }
{
    let mut list = Vec::new(alloc);
    for decl in decls {
        add_own(alloc, &mut list, decl)?;
    }
    Ok(list)
}
