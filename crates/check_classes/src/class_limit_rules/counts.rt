//! How many methods, parameters, values of locals and bases a class has.

ghost use Rattle.std.specs.Prelude.{◌≡◌, ◌∷◌, ◌+◌, ℕ, List, filter, flat_map, length, IfOk};
ghost use Rattle.st_tree.specs.declared.declaration.Member.{Member as AMember};
ghost use Rattle.st_rules.specs.Calls as calls;
ghost use Rattle.st_rules.specs.Classes as words;
ghost use Rattle.st_rules.specs.Faults.{least};
ghost use Rattle.st_rules.specs.Scope.{is_of_body, variables_of};
ghost use Rattle.st_unit_rules.specs.Limits as limits;
ghost use Rattle.check_limits.specs.type_sizes.Size.{capped};
ghost use Rattle.check_limits.specs.type_sizes.Sizes.{Measures};
ghost use Rattle.check_classes.specs.class_limit_rules.Private.Counts.{counted};

use check_calls::block_parameters;
use check_limits::{TypeSizes, add_body_values, methods_fault, too_many_bases, too_many_locals};
use class_tables::ClassTables;
use name_resolution::Scope;
use plc_text::{Code, NoMemory};
use st_rules::{earlier, when};
use st_tree::{ClassDecl, Member};
use std::alloc::Global;

/// So many methods with that which a member may be.
fn with_member(count: usize, member: &Member<u32>) -> Result<usize, NoMemory>
    ensures { IfOk result (λ n. (rest : List (AMember ℕ)) → n + length (words.methods_in rest) ≡ count + length (words.methods_in (member.now ∷ rest))) }
{
    match member {
        Member::Section(_) => Ok(count),
        Member::Method(_) => {
            let more = count.checked_add(1).ok_or(NoMemory)?;
            Ok(more)
        }
    }
}

/// How many methods a class has of its own.
fn count_methods(members: &[Member<u32>]) -> Result<usize, NoMemory>
    ensures { IfOk result (λ n. n ≡ length (words.methods_in members.now)) }
{
    let mut count: usize = 0;
    for member in members {
        count = with_member(count, member)?;
    }
    Ok(count)
}

/// E16 at the line of a class whose body has more than 32 parameters, with those of its bases.
fn body_parameters_fault(
    alloc: Global,
    s: &Scope<'_>,
    line: u32,
    class: u32,
) -> Result<Option<(Code, u32)>, NoMemory>
    ensures { IfOk result (λ f. f ≡ least (limits.too_many_parameters line (length (calls.block_parameters s.now class)))) }
{
    let parameters = block_parameters(alloc, s, class)?;
    let count = parameters.len();
    Ok(when(count > 32, Code::E16, line))
}

/// So many values with those that one class of a chain adds to the locals of a body.
fn add_class(s: &Scope<'_>, sizes: &TypeSizes, before: u32, class: u32) -> u32
    requires { Measures sizes.now s.now }
    ensures { (n : ℕ) → before ≡ capped n → result ≡ capped (n + limits.all_values s.now (filter is_of_body (variables_of s.now class))) }
{
    add_body_values(sizes, before, s.variables_of(class))
}

/// The values of the locals of a body, with those of the bases: of all classes of a chain.
fn body_values(s: &Scope<'_>, sizes: &TypeSizes, chain: &[u32]) -> u32
    requires { Measures sizes.now s.now }
    ensures { result ≡ capped (limits.all_values s.now (filter is_of_body (flat_map (variables_of s.now) chain.now))) }
{
    let mut sum = 0u32;
    for class in chain {
        sum = add_class(s, sizes, sum, *class);
    }
    sum
}

/// What the numbers of methods, parameters, locals and bases of a class break, whose chain this is.
pub fn counts_fault(
    alloc: Global,
    s: &Scope<'_>,
    sizes: &TypeSizes,
    classes: &ClassTables,
    class: u32,
    chain: &[u32],
    decl: &ClassDecl<u32>,
) -> Result<Option<(Code, u32)>, NoMemory>
    requires sizes { Measures sizes.now s.now }
    requires classes { s.now.classes ≡ words.classes_in classes.now.decls }
    requires chain { chain.now ≡ words.chain s.now.classes class }
    ensures { IfOk result (λ f. f ≡ least (counted classes.now.decls s.now class decl.now)) }
{
    let line = decl.line;
    let members = decl.members.as_slice();
    let count = count_methods(members)?;
    let methods = methods_fault(line, count);
    let parameters = body_parameters_fault(alloc, s, line, class)?;
    let values = body_values(s, sizes, chain);
    let locals = too_many_locals(line, values);
    let bases = too_many_bases(classes, line, chain);
    Ok(earlier(earlier(earlier(methods, parameters), locals), bases))
}
