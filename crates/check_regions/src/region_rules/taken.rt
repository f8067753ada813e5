//! What regions take, one after the other, and which rules one breaks among those before it.

ghost use Rattle.std.specs.Prelude.{◌≡◌, ◌+◌, ◌++◌, [], ◌∷◌, ◌&&◌, not, ℕ, List, IfOk};
ghost use Rattle.st_tree.specs.declared.configuration.InstanceSpec.{InstanceSpec};
ghost use Rattle.st_tree.specs.declared.unit.Decl.{Decl};
ghost use Rattle.st_rules.specs.Faults.{least};
ghost use Rattle.st_unit_rules.specs.declared_names.Declarations.{Region, of_instance, region_of_global};
ghost use Rattle.st_unit_rules.specs.declared_names.WrittenTypes.{type_written};
ghost use Rattle.st_unit_rules.specs.declaration_list.Written.{written_of};
ghost use Rattle.st_unit_rules.specs.Addresses as addresses;
ghost use Rattle.st_unit_rules.specs.Addresses.{Bits, bits_shared, shares_bits, variable_bits};
ghost use Rattle.st_unit_rules.specs.DeclarationRules as rules;
ghost use Rattle.st_unit_rules.specs.Limits as limits;
ghost use Rattle.check_regions.specs.shared_bits.Taken.{Takes};
ghost use Rattle.check_limits.specs.type_sizes.Size.{capped};
ghost use Rattle.check_limits.specs.type_sizes.Sizes.{Measures};
ghost use Rattle.check_regions.specs.region_rules.Taken as taken;
ghost use Rattle.check_regions.specs.region_rules.Taken.{Holds, IsInstanced, bits_given};

use crate::region_rules::limits::{too_many_regions, too_many_values};
use crate::region_rules::programs::InstancedProgram;
use crate::shared_bits::TakenBits;
use check_limits::TypeSizes;
use plc_text::{Code, NoMemory};
use st_rules::{earlier, when};
use st_tree::SectionSort;
use st_types::StType;
use st_unit_rules::declaration_list::WrittenName;
use std::alloc::Global;

/// The bits, the number and the values of all regions before one.
#[derive(Drop)]
pub struct TakenRegions {
    bits: TakenBits,
    count: u32,
    values: u32,
}

/// Whether a variable that is no constant may have an address.
fn may_be_located(written: &WrittenName<'_>) -> bool
    ensures { result ≡ (addresses.may_be_located (written_of written.now).sort && not (written_of written.now).constant) }
{
    match written.section.sort {
        SectionSort::Var | SectionSort::Global => !written.is_constant(),
        _ => false,
    }
}

/// Takes the bits of a variable; whether one of them was taken.
fn take_variable(bits: &mut TakenBits, written: &WrittenName<'_>) -> bool
    ensures shared { (taken : List Bits) → Takes bits.old taken → result ≡ shares_bits taken (variable_bits (written_of written.now)) }
    ensures taken { (taken : List Bits) → Takes bits.old taken → Takes bits.new (taken ++ variable_bits (written_of written.now)) }
{
    if may_be_located(written) {
        bits.take(&written.item.address)
    } else {
        false
    }
}

/// The least rule that a region with so many values breaks among so many regions with so many values.
fn broken(line: u32, shared: bool, count: u32, values: u32, own: u32) -> Option<(Code, u32)>
    ensures { (taken bs : List Bits) (n m v : ℕ) → shared ≡ shares_bits taken bs → count ≡ capped n → values ≡ capped m → own ≡ capped v → result ≡ least (bits_shared line taken bs ++ limits.too_many_regions line n ++ limits.too_many_values line m v) }
{
    let bits = when(shared, Code::E14, line);
    let regions = too_many_regions(line, count);
    let all = too_many_values(line, values, own);
    earlier(earlier(bits, regions), all)
}

/// Takes the bits of the variables of a program, if there is one; whether one of them was taken.
fn take_program(bits: &mut TakenBits, program: &Option<InstancedProgram<'_>>) -> bool
    ensures shared { (taken : List Bits) → Takes bits.old taken → result ≡ shares_bits taken (bits_given program.now) }
    ensures taken { (taken : List Bits) → Takes bits.old taken → Takes bits.new (taken ++ bits_given program.now) }
{
    match program {
        Some(program) => bits.take_sections(program.sections),
        None => false,
    }
}

fn values_given(program: &Option<InstancedProgram<'_>>) -> u32
    ensures { result ≡ taken.values_given program.now }
{
    match program {
        Some(program) => program.values,
        None => 0,
    }
}

impl TakenRegions {
    /// There are no regions.
    pub fn none(alloc: Global) -> Result<TakenRegions, NoMemory>
        ensures { IfOk result (λ t. (decls : List (Decl ℕ)) → Holds t decls []) }
    {
        let bits = TakenBits::none(alloc)?;
        Ok(TakenRegions {
            bits,
            count: 0,
            values: 0,
        })
    }

    /// One more region, with so many values.
    fn count(&mut self, own: u32)
        ensures bits { self.new.bits ≡ self.old.bits }
        ensures count { self.new.count ≡ capped (self.old.count + 1) }
        ensures values { self.new.values ≡ capped (self.old.values + own) }
    {
        self.count = self.count.saturating_add(1);
        self.values = self.values.saturating_add(own);
    }

    /// Takes the region of a global variable of this type, at the line of its name, and gives the least rule that it breaks among the
    /// regions before it: E14 for a bit that is shared, E16 for the 1,025th region, or for the one with which all have more than 131,072
    /// values. A constant is no region.
    pub fn take_global(
        &mut self,
        sizes: &TypeSizes,
        written: &WrittenName<'_>,
        kind: &Option<StType>,
    ) -> Option<(Code, u32)>
        ensures fault { (decls : List (Decl ℕ)) (before : List Region) → Measures sizes.now (rules.unit decls) → kind.now ≡ type_written (rules.unit decls) (written_of written.now).item.kind → Holds self.old decls before → result ≡ least (rules.regions_faults decls before (region_of_global (written_of written.now))) }
        ensures taken { (decls : List (Decl ℕ)) (before : List Region) → Measures sizes.now (rules.unit decls) → kind.now ≡ type_written (rules.unit decls) (written_of written.now).item.kind → Holds self.old decls before → Holds self.new decls (before ++ region_of_global (written_of written.now)) }
    {
        if written.is_constant() {
            return None;
        }
        let own = sizes.values_of(kind);
        let shared = take_variable(&mut self.bits, written);
        let fault = broken(written.name.line, shared, self.count, self.values, own);
        self.count(own);
        fault
    }

    /// The same for an instance of a program, or of one that is not found, at the line of PROGRAM.
    pub fn take_instance(
        &mut self,
        program: &Option<InstancedProgram<'_>>,
        line: u32,
    ) -> Option<(Code, u32)>
        ensures fault { (decls : List (Decl ℕ)) (before : List Region) (x : InstanceSpec) → IsInstanced decls program.now (rules.program_of decls x) → Holds self.old decls before → result ≡ least (rules.region_faults decls before line (of_instance x)) }
        ensures taken { (decls : List (Decl ℕ)) (before : List Region) (x : InstanceSpec) → IsInstanced decls program.now (rules.program_of decls x) → Holds self.old decls before → Holds self.new decls (before ++ of_instance x ∷ []) }
    {
        let own = values_given(program);
        let shared = take_program(&mut self.bits, program);
        let fault = broken(line, shared, self.count, self.values, own);
        self.count(own);
        fault
    }
}
