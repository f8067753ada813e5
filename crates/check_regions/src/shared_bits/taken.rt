//! The bits that variables take, one after the other.

ghost use Rattle.std.specs.Prelude.{◌≡◌, ◌≤◌, ◌+◌, ◌++◌, [], false, ℕ, List, length, flat_map, IfOk, IfSome};
ghost use Rattle.st_unit_rules.specs.Addresses.{Bits as SomeBits, bits_of, all_bits, may_be_located, shares_bits};
ghost use Rattle.st_unit_rules.specs.declared_names.Variables.{declares_constants, sections_written};
ghost use Rattle.check_regions.specs.shared_bits.Taken.{Takes};
ghost use Rattle.check_regions.specs.shared_bits.Private.Spans.{TakesSpans};
ghost use Rattle.check_regions.specs.shared_bits.Private.Spans as spans;

use crate::shared_bits::span::{Span, span_of};
use crate::shared_bits::table::{none_taken, take_span};
use plc_text::{NoMemory, Text};
use st_rules::is_constant;
use st_tree::{Item, Name, Section, SectionSort};
use std::alloc::Global;
use std::marker::Model;

/// So many marks there are: 2,056 of outputs and 32,776 of memory.
const MARKS: usize = 34_832;

/// The bits of outputs and memory that are taken. Contracts see marks: those of outputs, and behind them those of memory.
#[derive(Drop)]
pub struct TakenBits {
    marks: Vec<bool>,
}

impl Model for TakenBits {
    ghost use Rattle.std.specs.Prelude.{◌≡◌, Bool, List, length};

    ghost Value = { List Bool };

    ghost view = { λ t. t.marks.items };

    ghost invariant = { λ t. length t.marks.items ≡ 34_832 };
}

impl TakenBits {
    /// No bits are taken.
    pub fn none(alloc: Global) -> Result<TakenBits, NoMemory>
        ensures { IfOk result (λ t. Takes t []) }
    {
        let marks = none_taken(alloc, MARKS)?;
        Ok(TakenBits { marks })
    }

    /// Takes the bits of a variable at an address, if it has one; whether one of them was taken.
    pub fn take(&mut self, address: &Option<Text>) -> bool
        ensures shared { (taken : List SomeBits) → Takes self.old taken → result ≡ shares_bits taken (bits_of address.now) }
        ensures taken { (taken : List SomeBits) → Takes self.old taken → Takes self.new (taken ++ bits_of address.now) }
    {
        take_if(&mut self.marks, false, span_of(address))
    }

    /// Takes the bits of all variables of sections; whether one of them was taken.
    pub fn take_sections(&mut self, sections: &[Section<u32>]) -> bool
        ensures shared { (taken : List SomeBits) → Takes self.old taken → result ≡ shares_bits taken (all_bits (sections_written sections.now)) }
        ensures taken { (taken : List SomeBits) → Takes self.old taken → Takes self.new (taken ++ all_bits (sections_written sections.now)) }
    {
        take_all(&mut self.marks, sections)
    }
}

/// Takes marks, if there are some; whether one was taken, or was so before.
fn take_if(marks: &mut Vec<bool>, shared: bool, span: Option<Span>) -> bool
    requires long { length marks.old.items ≡ 34_832 }
    requires inside { IfSome span (λ s. s.start + s.width ≤ 34_832) }
    ensures long { length marks.new.items ≡ 34_832 }
    ensures takes { TakesSpans marks.old.items marks.new.items shared result (spans.if_there span) }
{
    match span {
        Some(span) => take_span(marks, shared, span),
        None => shared,
    }
}

/// The same once for each name.
fn take_names(marks: &mut Vec<bool>, shared: bool, span: Option<Span>, names: &[Name]) -> bool
    requires long { length marks.old.items ≡ 34_832 }
    requires inside { IfSome span (λ s. s.start + s.width ≤ 34_832) }
    ensures long { length marks.new.items ≡ 34_832 }
    ensures takes { TakesSpans marks.old.items marks.new.items shared result (flat_map (λ n. spans.if_there span) names.now) }
{
    let mut found = shared;
    for _name in names {
        found = take_if(marks, found, span);
    }
    found
}

fn take_item(marks: &mut Vec<bool>, shared: bool, item: &Item<u32>) -> bool
    requires { length marks.old.items ≡ 34_832 }
    ensures long { length marks.new.items ≡ 34_832 }
    ensures takes { TakesSpans marks.old.items marks.new.items shared result (spans.item_spans item.now) }
{
    let span = span_of(&item.address);
    take_names(marks, shared, span, item.names.as_slice())
}

fn take_items(marks: &mut Vec<bool>, shared: bool, items: &[Item<u32>]) -> bool
    requires { length marks.old.items ≡ 34_832 }
    ensures long { length marks.new.items ≡ 34_832 }
    ensures takes { TakesSpans marks.old.items marks.new.items shared result (flat_map spans.item_spans items.now) }
{
    let mut found = shared;
    for item in items {
        found = take_item(marks, found, item);
    }
    found
}

/// Whether the variables of a section may have addresses.
fn is_located(section: &Section<u32>) -> bool
    ensures { result ≡ spans.is_located section.now }
{
    match section.sort {
        SectionSort::Var => !is_constant(section.modifiers.as_slice()),
        SectionSort::Global => !is_constant(section.modifiers.as_slice()),
        _ => false,
    }
}

fn take_section(marks: &mut Vec<bool>, shared: bool, section: &Section<u32>) -> bool
    requires { length marks.old.items ≡ 34_832 }
    ensures long { length marks.new.items ≡ 34_832 }
    ensures takes { TakesSpans marks.old.items marks.new.items shared result (spans.section_spans section.now) }
{
    if is_located(section) {
        take_items(marks, shared, section.items.as_slice())
    } else {
        shared
    }
}

fn take_all(marks: &mut Vec<bool>, sections: &[Section<u32>]) -> bool
    requires { length marks.old.items ≡ 34_832 }
    ensures long { length marks.new.items ≡ 34_832 }
    ensures takes { TakesSpans marks.old.items marks.new.items false result (spans.sections_spans sections.now) }
{
    let mut found = false;
    for section in sections {
        found = take_section(marks, found, section);
    }
    found
}
