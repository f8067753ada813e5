//! The members of a class, in the order of the text.

ghost use Rattle.std.specs.Prelude.{◌≡◌, Some, false, [], IfOk};
ghost use Rattle.section_rules.specs.Home.{home_of};
ghost use Rattle.symbol_table.specs.unit_tables.Scopes.{scope_in};
ghost use Rattle.check_classes.specs.member_rules.Members.{ChecksMembers};
ghost use Rattle.check_classes.specs.member_rules.Private.Members.{AddsMember, ChecksMember, IsMethodMember, IsSectionMember, NoMembers};

use check_declared_variables::{CheckedSection, check_section};
use check_routines::{CheckedMethod, check_method};
use name_resolution::Scope;
use plc_text::{Code, Items, NoMemory};
use section_rules::Home;
use st_rules::earlier;
use st_tree::{Member, Note};
use std::alloc::Global;
use symbol_table::unit_tables::UnitTables;

/// What is found out about the members of a class.
pub struct CheckedMembers {
    /// The least rule that its sections break, with its least line.
    pub sections: Option<(Code, u32)>,
    /// The same of its methods.
    pub methods: Option<(Code, u32)>,
    /// The members with all types and meanings, where no method breaks a rule.
    pub members: Items<Member<Note>>,
}

// By hand, so that a drop is one call: a derived one is written out wherever a `?` may need it.
impl Drop for CheckedMembers {
    fn drop(self) {
        drop(self.into_members());
    }
}

impl CheckedMembers {
    /// The typed trees alone.
    pub fn into_members(self) -> Items<Member<Note>>
        ensures { result ≡ self.members }
    {
        let CheckedMembers {
            sections: _,
            methods: _,
            members,
        } = self;
        members
    }
}

/// What is found out about a member.
#[derive(Drop)]
struct CheckedMember {
    section: Option<(Code, u32)>,
    method: Option<(Code, u32)>,
    member: Member<Note>,
}

fn section_member(found: CheckedSection) -> CheckedMember
    ensures { IsSectionMember result found }
{
    CheckedMember {
        section: found.least,
        method: None,
        member: Member::Section(found.into_section()),
    }
}

fn method_member(found: CheckedMethod) -> CheckedMember
    ensures { IsMethodMember result found }
{
    let CheckedMethod { least, method } = found;
    CheckedMember {
        section: None,
        method: least,
        member: Member::Method(method),
    }
}

/// Checks a member of a class.
fn check_member(
    alloc: Global,
    tables: &UnitTables<'_>,
    s: &Scope<'_>,
    class: u32,
    home: Home,
    member: &Member<u32>,
) -> Result<CheckedMember, NoMemory>
    requires { s.now ≡ scope_in tables.now.decls (Some class) false [] }
    ensures { IfOk result (λ c. ChecksMember c tables.now.decls (home_of home) class member.now) }
{
    match member {
        Member::Section(section) => {
            let names = tables.names();
            let classes = tables.classes();
            let found = check_section(alloc, s, names, classes, home, section)?;
            Ok(section_member(found))
        }
        Member::Method(method) => {
            let found = check_method(alloc, tables, class, method)?;
            Ok(method_member(found))
        }
    }
}

fn no_members(alloc: Global) -> CheckedMembers
    ensures { NoMembers result }
{
    CheckedMembers {
        sections: None,
        methods: None,
        members: Items::new(alloc),
    }
}

fn with_member(so_far: CheckedMembers, one: CheckedMember) -> Result<CheckedMembers, NoMemory>
    ensures { IfOk result (λ x. AddsMember x so_far one) }
{
    let mut so_far = so_far;
    let CheckedMember {
        section,
        method,
        member,
    } = one;
    so_far.sections = earlier(so_far.sections, section);
    so_far.methods = earlier(so_far.methods, method);
    so_far.members.push(member)?;
    Ok(so_far)
}

/// Checks the members of the class of this number, in its scope: the least rule that its sections break and the least one that its methods
/// break, and their typed trees.
pub fn check_members(
    alloc: Global,
    tables: &UnitTables<'_>,
    s: &Scope<'_>,
    class: u32,
    home: Home,
    members: &[Member<u32>],
) -> Result<CheckedMembers, NoMemory>
    requires { s.now ≡ scope_in tables.now.decls (Some class) false [] }
    ensures { IfOk result (λ c. ChecksMembers c tables.now.decls (home_of home) class members.now) }
{
    let mut so_far = no_members(alloc);
    for member in members {
        let one = check_member(alloc, tables, s, class, home, member)?;
        so_far = with_member(so_far, one)?;
    }
    Ok(so_far)
}
