//! Signatures by numbers, and the rules of classes.

ghost use Rattle.std.specs.Prelude.{◌≡◌};
ghost use Rattle.st_rules.specs.declared.signature.Signatures.{Signatures as AllSignatures};
ghost use Rattle.st_rules.specs.Classes.{classes_in};
ghost use Rattle.st_rules.specs.ClassRules as rules;
ghost use Rattle.st_rules.specs.Faults.{least};
ghost use Rattle.st_rules.specs.InterfaceRules as abstracts;
ghost use Rattle.st_rules.specs.Interfaces.{interfaces_in};
ghost use Rattle.st_unit_rules.specs.Worth.{Worth, same_worth};
ghost use Rattle.default_values.specs.numbered_signatures.Signatures.{Tells};

use crate::worth_numbers::WorthNumbers;
use class_tables::ClassTables;
use iface_tables::IfaceTables;
use plc_text::Code;
use st_rules::Signatures;

/// The signatures of all methods of classes and interfaces, by their numbers, with a number for what each initial value is worth.
pub struct NumberedSignatures {
    pub worths: WorthNumbers,
    pub signatures: Signatures<u32>,
}

// By hand, so that a drop is one call: a derived one is written out wherever a `?` may need it.
impl Drop for NumberedSignatures {
    fn drop(self) {
        let NumberedSignatures { worths, signatures } = self;
        drop(worths);
        drop(signatures);
    }
}

impl NumberedSignatures {
    /// The least of the rules of bases and methods that a class breaks (E06, E12), and its line.
    pub fn class_fault(&self, classes: &ClassTables, class: u32) -> Option<(Code, u32)>
        ensures { (all : AllSignatures Worth) → Tells self.now.worths self.now.signatures all → result ≡ least (rules.class_faults same_worth (classes_in classes.now.decls) all class) }
    {
        self.worths.worth_laws();
        classes.broken(class, &self.signatures)
    }

    /// E11 and the line of a class that is not abstract and leaves a method: an abstract one, or one of an interface.
    pub fn concrete_class_fault(&self, interfaces: &IfaceTables, class: u32) -> Option<(Code, u32)>
        ensures { (all : AllSignatures Worth) → Tells self.now.worths self.now.signatures all → result ≡ least (abstracts.concrete_class_faults (classes_in interfaces.now.decls) (interfaces_in interfaces.now.decls) same_worth all class) }
    {
        self.worths.worth_laws();
        interfaces.broken_class(class, &self.signatures)
    }
}
