//! What calls name, in tables by number and by name.

ghost use Rattle.std.specs.Prelude.{◌≡◌, ◌+◌, IfOk, slice_get};
ghost use Rattle.routine_tables.specs.Parameters.{parameters_of};
ghost use Rattle.codegen_tables.specs.Calls.{entries_named, entry_named, list_at, list_in, method_entry, signature_entry, target_by};

use plc_text::{Items, NoMemory, Text};
use routine_tables::Parameter;
use st_names::Names;
use st_types::StType;

/// What is entered by a number or a name.
#[derive(Clone, Copy)]
pub struct CallEntry {
    /// The number of the routine.
    pub routine: u32,
    /// Of a method the slot in its class, or its number in its interface.
    pub slot: u32,
    /// The number of its list of parameters.
    pub parameters: u32,
}

/// What calls name.
#[derive(Drop)]
pub struct CallTables {
    pub functions: Items<CallEntry>,
    /// Of each class and program the methods that its instances have, also by its bases.
    pub methods: Items<Names<CallEntry>>,
    /// The body of each class and program.
    pub bodies: Items<CallEntry>,
    /// The methods of each interface.
    pub signatures: Items<Names<CallEntry>>,
    pub parameters: Items<Items<Parameter>>,
}

fn entry_of(names: &Names<CallEntry>, name: &Text) -> Option<CallEntry>
    ensures { result ≡ entry_named names.now name.now }
{
    match names.find(name) {
        Some(n) => Some(*names.at(n)),
        None => None,
    }
}

fn entry_among(all: &[Names<CallEntry>], n: u32, name: &Text) -> Option<CallEntry>
    ensures { result ≡ entries_named (slice_get all.now n) name.now }
{
    match all.get(n as usize) {
        Some(names) => entry_of(names, name),
        None => None,
    }
}

fn list_of(lists: &[Items<Parameter>], n: u32) -> &[Parameter]
    ensures { parameters_of result.now ≡ list_at (slice_get lists.now n) }
{
    match lists.get(n as usize) {
        Some(list) => list.as_slice(),
        None => &[],
    }
}

/// A number of 32 bits that follows others.
fn behind(before: usize, n: usize) -> Result<u32, NoMemory>
    ensures { IfOk result (λ m. m ≡ before + n) }
{
    let Some(sum) = before.checked_add(n) else {
        return Err(NoMemory);
    };
    match u32::try_from(sum) {
        Ok(m) => Ok(m),
        Err(_) => Err(NoMemory),
    }
}

impl CallTables {
    /// The function of this number.
    pub fn function(&self, n: u32) -> Option<CallEntry>
        ensures { result ≡ slice_get self.now.functions n }
    {
        self.functions.get(n as usize).copied()
    }

    /// What a name means among the methods of a class.
    pub fn method(&self, class: u32, name: &Text) -> Option<CallEntry>
        ensures { result ≡ method_entry self.now class name.now }
    {
        entry_among(self.methods.as_slice(), class, name)
    }

    /// The body of a class.
    pub fn body(&self, class: u32) -> Option<CallEntry>
        ensures { result ≡ slice_get self.now.bodies class }
    {
        self.bodies.get(class as usize).copied()
    }

    /// What a name means among the methods of an interface.
    pub fn signature(&self, interface: u32, name: &Text) -> Option<CallEntry>
        ensures { result ≡ signature_entry self.now interface name.now }
    {
        entry_among(self.signatures.as_slice(), interface, name)
    }

    /// The parameters of what is entered.
    pub fn parameters_of(&self, entry: Option<CallEntry>) -> &[Parameter]
        ensures { parameters_of result.now ≡ list_in self.now entry }
    {
        match entry {
            Some(entry) => list_of(self.parameters.as_slice(), entry.parameters),
            None => &[],
        }
    }

    /// The number of a class or interface as a target of conversion: interfaces stand behind the classes. Nothing conforms to any other type.
    pub fn target(&self, kind: &StType) -> Result<u32, NoMemory>
        ensures { IfOk result (λ n. n ≡ target_by self.now kind.now) }
    {
        match kind {
            StType::Instance(class) => Ok(*class),
            StType::Reference(class) => Ok(*class),
            StType::Interface(interface) => behind(self.methods.len(), *interface as usize),
            _ => behind(self.methods.len(), self.signatures.len()),
        }
    }
}
