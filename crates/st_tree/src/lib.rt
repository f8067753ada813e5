//! The tokens and the tree of a program text: a node for each rule of the grammar (IEC 61131-3:2013, 6.1 and annex A). Each
//! node has a note: its line in the text as it is written, or what is found out about it in a checked program.
#![tactic(auto)]

mod address;
mod configuration;
mod declaration;
mod duration;
mod expression;
mod initial;
mod marks;
mod name;
mod number;
mod path;
mod program;
mod seen;
mod statement;
mod terminal;
mod token;
mod type_spec;
mod unit;
mod wide;

pub use address::{Area, Width, area_of, bit_of, index_of, width_of};
pub use configuration::{Configuration, InstanceSpec, Resource, Setting, SettingValue, TaskSpec};
pub use declaration::{
    ClassDecl, ClassSort, FieldGroup, FunctionDecl, InterfaceDecl, Item, Member, Method, Modifier,
    ProgramDecl, Prototype, Section, SectionSort, TypeBody, TypeDecl,
};
pub use duration::{TimeUnit, milliseconds};
pub use expression::{Argument, Expr, Literal, Operator, Place, Root, Selector, Tail};
pub use initial::{FieldInit, Init, Part};
pub use marks::Marks;
pub use name::{Name, Used};
pub use number::number_of;
pub use path::{Path, Step, Steps};
pub use program::{Note, Program, RegionDecl, Target, TaskDecl};
pub use seen::{SeenProgram, SeenUnit};
pub use statement::{Branch, Case, Label, LabelEnd, Otherwise, Stmt};
pub use terminal::{Terminal, is_keyword, keyword, symbol, terminal_laws, terminal_of};
pub use token::{TokenKind, token_laws};
pub use type_spec::{ArraySpec, Bounds, SimpleSpec, TypeSpec};
pub use unit::{Decl, Unit};
pub use wide::wide_number;
