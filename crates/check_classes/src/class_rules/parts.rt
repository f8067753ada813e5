//! A class from what was found out about its parts.

ghost use Rattle.std.specs.Prelude.{◌≡◌, ℕ, List, IfOk};
ghost use Rattle.st_tree.specs.declared.unit.Decl.{Decl as ADecl};
ghost use Rattle.section_rules.specs.Home.{home_of};
ghost use Rattle.st_unit_rules.specs.DeclarationRules as rules;
ghost use Rattle.check_classes.specs.class_rules.Private.Parts.{IsClass, IsHeading, least_of};

use crate::base_rules::{CheckedBase, CheckedInterfaces};
use crate::member_rules::CheckedMembers;
use check_routines::FoundBody;
use plc_text::{Code, Items, NoMemory};
use section_rules::Home;
use st_rules::earlier;
use st_tree::{ClassDecl, ClassSort, Modifier, Name, Note};
use std::alloc::Global;

/// What is found out about a class or a function block.
#[derive(Drop)]
pub struct CheckedClass {
    /// The least rule that is broken, with its least line.
    pub least: Option<(Code, u32)>,
    /// The class with all types and meanings, where no rule is broken.
    pub class: ClassDecl<Note>,
}

/// What stands before the base of a class.
pub struct Heading {
    line: u32,
    sort: ClassSort,
    modifiers: Items<Modifier>,
    name: Name,
}

// By hand, so that a drop is one call: a derived one is written out wherever a `?` may need it.
impl Drop for Heading {
    fn drop(self) {
        let Heading {
            line: _,
            sort: _,
            modifiers,
            name,
        } = self;
        drop(modifiers);
        drop(name);
    }
}

/// What a class breaks besides its base, its interfaces, its members and its body.
#[derive(Clone, Copy)]
pub struct Broken {
    /// By words that stand twice.
    pub words: Option<(Code, u32)>,
    /// By the names of its members.
    pub names: Option<(Code, u32)>,
    /// By its bases and its methods.
    pub bases: Option<(Code, u32)>,
    /// By methods that are left abstract.
    pub concrete: Option<(Code, u32)>,
    /// By constants that need themselves.
    pub cycles: Option<(Code, u32)>,
    pub limits: Option<(Code, u32)>,
}

/// What is found out about the trees in a class.
#[derive(Drop)]
pub struct Trees {
    pub base: CheckedBase,
    pub interfaces: CheckedInterfaces,
    pub members: CheckedMembers,
    pub body: FoundBody,
}

/// What its sections belong to.
pub fn home(sort: ClassSort) -> Home
    ensures { (decls : List (ADecl ℕ)) → home_of result ≡ rules.class_home decls sort }
{
    match sort {
        ClassSort::Class => Home::Class,
        ClassSort::FunctionBlock => Home::Block,
    }
}

/// What stands before the base of a class, once more.
pub fn heading_of(alloc: Global, class: &ClassDecl<u32>) -> Result<Heading, NoMemory>
    ensures { IfOk result (λ h. IsHeading h class.now) }
{
    let modifiers = Items::from_slice(alloc, class.modifiers.as_slice())?;
    let name = class.name.copy(alloc)?;
    Ok(Heading {
        line: class.line,
        sort: class.sort,
        modifiers,
        name,
    })
}

/// The first of two rules that are broken, of the third, and so on.
fn earliest(broken: &Broken, found: &Trees) -> Option<(Code, u32)>
    ensures { result ≡ least_of broken.now found.now }
{
    let names = earlier(broken.words, broken.names);
    let above = earlier(earlier(names, found.base.least), found.interfaces.least);
    let bases = earlier(earlier(above, broken.bases), broken.concrete);
    let sections = earlier(earlier(bases, found.members.sections), broken.cycles);
    let members = earlier(earlier(sections, found.members.methods), broken.limits);
    earlier(members, found.body.least)
}

impl Heading {
    /// A class with this heading and these trees, which breaks this besides.
    pub fn class_of(self, broken: &Broken, found: Trees) -> CheckedClass
        ensures { IsClass result self broken.now found }
    {
        let least = earliest(broken, &found);
        let Heading {
            line,
            sort,
            modifiers,
            name,
        } = self;
        let Trees {
            base,
            interfaces,
            members,
            body,
        } = found;
        let FoundBody { least: _, body } = body;
        CheckedClass {
            least,
            class: ClassDecl {
                line,
                sort,
                modifiers,
                name,
                base: base.into_base(),
                interfaces: interfaces.into_interfaces(),
                members: members.into_members(),
                body,
            },
        }
    }
}
