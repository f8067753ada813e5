//! Signatures of methods (IEC 61131-3:2013, 6.6.5.4).

ghost use Rattle.std.specs.Prelude.{◌≡◌, []};
ghost use Rattle.st_rules.specs.Signatures as signatures;
ghost use Rattle.st_rules.specs.Types as types;

use plc_text::{Items, Text};
use st_tree::SectionSort;
use st_types::{Elem, StType};

/// The type of a result.
#[derive(Drop)]
pub enum ResultType {
    /// There is no result.
    Nothing,
    /// None where the type cannot be told.
    Written(Option<StType>),
}

/// An input, an output or an in-out.
pub struct Parameter<V> {
    pub sort: SectionSort,
    /// In upper case.
    pub name: Text,
    /// None where the type cannot be told.
    pub kind: Option<StType>,
    /// What the initial value is worth; None for an in-out, and where it cannot be told.
    pub initial: Option<V>,
}

// By hand, so that a drop is one call: a derived one is written out wherever a `?` may need it, and a proof goes over each part.
impl<V: Drop> Drop for Parameter<V> {
    fn drop(self) {
        let Parameter {
            sort,
            name,
            kind,
            initial,
        } = self;
        drop(sort);
        drop(name);
        drop(kind);
        drop(initial);
    }
}

/// The result type of a method, and its inputs, outputs and in-outs in the order of the text.
#[derive(Drop)]
pub struct Signature<V> {
    pub result: ResultType,
    pub parameters: Items<Parameter<V>>,
}

/// The signatures of the methods of all classes and interfaces, by the numbers of class and method, and of interface and method.
#[derive(Drop)]
pub struct Signatures<V> {
    pub methods: Items<Items<Signature<V>>>,
    pub prototypes: Items<Items<Signature<V>>>,
    /// What FALSE is worth.
    pub falsehood: V,
}

fn same_type(a: &Option<StType>, b: &Option<StType>) -> bool
    ensures { result ≡ signatures.same_if_told types.same_type a.now b.now }
{
    match (a, b) {
        (Some(a), Some(b)) => a.is_same(b),
        _ => true,
    }
}

fn same_value<V: PartialEq>(a: &Option<V>, b: &Option<V>) -> bool
    ensures { result ≡ signatures.same_if_told V.eq a.now b.now }
{
    match (a, b) {
        (Some(a), Some(b)) => a == b,
        _ => true,
    }
}

fn same_result(a: &ResultType, b: &ResultType) -> bool
    ensures { result ≡ signatures.same_result a.now b.now }
{
    match (a, b) {
        (ResultType::Nothing, ResultType::Nothing) => true,
        (ResultType::Written(a), ResultType::Written(b)) => same_type(a, b),
        _ => false,
    }
}

fn same_parameter<V: PartialEq>(a: &Parameter<V>, b: &Parameter<V>) -> bool
    ensures { result ≡ signatures.same_parameter V.eq a.now b.now }
{
    same_sort(a.sort, b.sort)
        && a.name == b.name
        && same_type(&a.kind, &b.kind)
        && same_value(&a.initial, &b.initial)
}

fn same_sort(a: SectionSort, b: SectionSort) -> bool
    ensures { result ≡ signatures.same_sort a b }
{
    match a {
        SectionSort::Var => matches!(b, SectionSort::Var),
        SectionSort::Input => matches!(b, SectionSort::Input),
        SectionSort::Output => matches!(b, SectionSort::Output),
        SectionSort::InOut => matches!(b, SectionSort::InOut),
        SectionSort::Temp => matches!(b, SectionSort::Temp),
        SectionSort::External => matches!(b, SectionSort::External),
        SectionSort::Global => matches!(b, SectionSort::Global),
    }
}

fn same_parameters<V: PartialEq>(a: &[Parameter<V>], b: &[Parameter<V>]) -> bool
    ensures { result ≡ signatures.same_parameters V.eq a.now b.now }
{
    if a.len() != b.len() {
        return false;
    }
    for (i, p) in a.iter().enumerate() {
        if !same_parameter(p, &b[i]) {
            return false;
        }
    }
    true
}

/// Whether two methods have equal signatures, as far as both can be told.
pub fn same_signature<V: PartialEq>(a: &Signature<V>, b: &Signature<V>) -> bool
    ensures { result ≡ signatures.same_signature V.eq a.now b.now }
{
    same_result(&a.result, &b.result)
        && same_parameters(a.parameters.as_slice(), b.parameters.as_slice())
}

fn is_hook_input<V: PartialEq>(parameter: &Parameter<V>, name: &str, falsehood: &V) -> bool
    ensures { result ≡ signatures.same_parameter V.eq parameter.now (signatures.hook_input falsehood.now name.now) }
{
    same_sort(parameter.sort, SectionSort::Input)
        && parameter.name.as_str() == name
        && is_bool(&parameter.kind)
        && is_worth(&parameter.initial, falsehood)
}

fn is_bool(kind: &Option<StType>) -> bool
    ensures { result ≡ signatures.same_if_told types.same_type kind.now (Some (StType.Elementary Elem.Bool)) }
{
    match kind {
        Some(kind) => kind.is_same(&StType::Elementary(Elem::Bool)),
        None => true,
    }
}

fn is_worth<V: PartialEq>(value: &Option<V>, other: &V) -> bool
    ensures { result ≡ signatures.same_if_told V.eq value.now (Some other.now) }
{
    match value {
        Some(value) => value == other,
        None => true,
    }
}

fn has_bool_result(result_type: &ResultType) -> bool
    ensures { result ≡ signatures.same_result result_type.now (ResultType.Written (Some (StType.Elementary Elem.Bool))) }
{
    match result_type {
        ResultType::Nothing => false,
        ResultType::Written(kind) => is_bool(kind),
    }
}

fn has_init_inputs<V: PartialEq>(parameters: &[Parameter<V>], falsehood: &V) -> bool
    ensures { result ≡ signatures.same_parameters V.eq parameters.now (signatures.init_inputs falsehood.now) }
{
    if parameters.len() != 2 {
        return false;
    }
    let retains = is_hook_input(&parameters[0], "BINITRETAINS", falsehood);
    let copies = is_hook_input(&parameters[1], "BINCOPYCODE", falsehood);
    retains && copies
}

fn has_exit_inputs<V: PartialEq>(parameters: &[Parameter<V>], falsehood: &V) -> bool
    ensures { result ≡ signatures.same_parameters V.eq parameters.now (signatures.exit_inputs falsehood.now) }
{
    if parameters.len() != 1 {
        return false;
    }
    is_hook_input(&parameters[0], "BINCOPYCODE", falsehood)
}

fn has_no_inputs<V: PartialEq>(parameters: &[Parameter<V>]) -> bool
    ensures { result ≡ signatures.same_parameters V.eq parameters.now [] }
{
    parameters.is_empty()
}

/// Whether a method of the name runs at the beginning or the end of an instance (FB_init, FB_exit, FB_reinit), and has another
/// signature than that asks for, as far as it can be told. `falsehood` is what FALSE is worth.
pub fn differs_from_hook<V: PartialEq>(name: &Text, signature: &Signature<V>, falsehood: &V) -> bool
    ensures { result ≡ signatures.differ V.eq (Some signature.now) (signatures.hook_signature falsehood.now name.now) }
{
    let parameters = signature.parameters.as_slice();
    let inputs = match name.as_str() {
        "FB_INIT" => has_init_inputs(parameters, falsehood),
        "FB_EXIT" => has_exit_inputs(parameters, falsehood),
        "FB_REINIT" => has_no_inputs(parameters),
        _ => return false,
    };
    !(has_bool_result(&signature.result) && inputs)
}

/// Whether methods of the name run at the beginning or the end of an instance.
pub fn is_hook(name: &Text) -> bool
    ensures { result ≡ signatures.is_hook name.now }
{
    matches!(name.as_str(), "FB_INIT" | "FB_EXIT" | "FB_REINIT")
}
