//! Items: variables that share what is written behind their names.

ghost use Rattle.std.specs.Prelude.{◌≡◌, IfOk};
ghost use Rattle.st_rules.specs.Faults.{least};
ghost use Rattle.section_rules.specs.Home.{home_of};
ghost use Rattle.section_rules.specs.Variables.{classes_of};
ghost use Rattle.check_declared_variables.specs.variable_rules.Items.{ChecksItem};
ghost use Rattle.check_declared_variables.specs.variable_rules.Private.Items.{external_if, IsHead, IsItem};

use crate::type_rules::{CheckedType, check_type};
use crate::variable_rules::copies::copied_names;
use crate::variable_rules::externals::externals_fault;
use crate::variable_rules::given::{CheckedGiven, check_given};
use crate::variable_rules::rules::own_fault;
use name_resolution::{NameTables, Scope};
use plc_text::{Code, Items, NoMemory, Text};
use section_rules::Home;
use st_rules::{copied_text, earlier, is_external};
use st_tree::{ClassDecl, Item, Marks, Name, Note, Section};
use st_types::StType;
use st_unit_rules::declaration_list::item_line;
use std::alloc::Global;

/// What is found out about an item.
pub struct CheckedItem {
    /// The least rule that is broken, with its least line.
    pub least: Option<(Code, u32)>,
    pub item: Item<Note>,
}

// By hand, so that a drop is one call: a derived one is written out wherever a `?` may need it.
impl Drop for CheckedItem {
    fn drop(self) {
        drop(self.into_item());
    }
}

impl CheckedItem {
    /// The typed tree alone.
    pub fn into_item(self) -> Item<Note>
        ensures { result ≡ self.item }
    {
        let CheckedItem { least: _, item } = self;
        item
    }
}

/// What an item says besides its type and its initial value.
struct Head {
    marks: Marks,
    names: Items<Name>,
    address: Option<Text>,
}

impl Drop for Head {
    fn drop(self) {
        let Head {
            marks,
            names,
            address,
        } = self;
        drop(marks);
        drop(names);
        drop(address);
    }
}

impl Head {
    /// An item of this type and with this initial value, which breaks this besides.
    fn item_of(
        self,
        kind: CheckedType,
        rules: Option<(Code, u32)>,
        given: CheckedGiven,
    ) -> CheckedItem
        ensures { IsItem result self kind rules given }
    {
        let Head {
            marks,
            names,
            address,
        } = self;
        let CheckedGiven {
            least: of_initial,
            initial,
        } = given;
        CheckedItem {
            least: earlier(earlier(kind.least, rules), of_initial),
            item: Item {
                marks,
                names,
                address,
                kind: kind.into_tree(),
                initial,
            },
        }
    }
}

/// What an item of externals breaks.
fn external_if(
    names: &NameTables,
    section: &Section<u32>,
    item: &Item<u32>,
    kind: &Option<StType>,
) -> Option<(Code, u32)>
    ensures { result ≡ least (external_if names.now.names section.now item.now kind.now) }
{
    if is_external(section.sort) {
        externals_fault(names, item_line(item), kind, item.names.as_slice())
    } else {
        None
    }
}

/// What an item says besides its type and its initial value, once more.
fn copied_head(alloc: Global, item: &Item<u32>) -> Result<Head, NoMemory>
    ensures { IfOk result (λ h. IsHead h item.now) }
{
    let marks = item.marks.copy(alloc)?;
    let names = copied_names(alloc, item.names.as_slice())?;
    let address = copied_text(alloc, &item.address)?;
    Ok(Head {
        marks,
        names,
        address,
    })
}

/// Checks an item of a section: the least rule that its names share and break, at its least line, and its typed tree. The tables and
/// the classes are those that the scope sees. It takes time linear in the text.
pub fn check_item(
    alloc: Global,
    s: &Scope<'_>,
    names: &NameTables,
    classes: &[&ClassDecl<u32>],
    home: Home,
    section: &Section<u32>,
    item: &Item<u32>,
) -> Result<CheckedItem, NoMemory>
    requires names { names.now.names ≡ s.now.names }
    requires classes { classes_of classes.now ≡ s.now.classes }
    ensures { IfOk result (λ c. ChecksItem c s.now (home_of home) section.now item.now) }
{
    let head = copied_head(alloc, item)?;
    let kind = check_type(alloc, s, &item.kind)?;
    let given = check_given(alloc, s, &kind.kind, &item.initial)?;
    let own = own_fault(classes, home, section, item, item_line(item), &kind.kind);
    let external = external_if(names, section, item, &kind.kind);
    Ok(head.item_of(kind, earlier(own, external), given))
}
