//! Configurations (IEC 61131-3:2013, 6.8).

ghost use Rattle.std.specs.Prelude.{◌≡◌, IfOk, IfErr};
ghost use Rattle.st_tree.specs.declared.terminal.Terminal.TheVariants as x;
ghost use Rattle.st_tree.specs.Grammar as g;
ghost use Rattle.st_tree.specs.Declarations as d;
ghost use Rattle.st_parser_decl.specs.Private.Form as f;
ghost use Rattle.st_parser_decl.specs.Private.Rules as w;
ghost use Rattle.st_parser_decl.specs.Private.Promises.{Parses, Fails};
ghost use Rattle.st_parser_decl.specs.Private.Configurations.{Scheduled, Placed};

use crate::leaf::{name, sign, text};
use crate::section::global_sections;
use plc_text::Items;
use st_parser_expr::{Cursor, Stop};
use st_parser_stmt::{Held, eat, is_next};
use st_tree::{Configuration, InstanceSpec, Resource, Setting, SettingValue, TaskSpec, Terminal};
use std::alloc::Global;

/// Schedule and the instances of programs.
#[derive(Drop)]
struct Schedule {
    tasks: Items<TaskSpec>,
    instances: Items<InstanceSpec>,
}

/// Schedule and instances, and the resource around them where there is one.
#[derive(Drop)]
struct Placement {
    resource: Option<Resource<u32>>,
    schedule: Schedule,
}

fn setting_value(alloc: Global, tokens: &mut Cursor<'_, '_>) -> Result<SettingValue, Stop>
    ensures ok { IfOk result (λ v. Parses (d.setting_value v) w.setting_value tokens.old tokens.new) }
    ensures err { IfErr result (Fails w.setting_value tokens.old) }
{
    if is_next(tokens, Terminal::Int) {
        let digits = text(alloc, tokens, Terminal::Int)?;
        return Ok(SettingValue::Int(digits));
    }
    let duration = text(alloc, tokens, Terminal::Duration)?;
    Ok(SettingValue::Time(duration))
}

/// `name := value`
fn setting(alloc: Global, tokens: &mut Cursor<'_, '_>) -> Result<Setting, Stop>
    ensures ok { IfOk result (λ s. Parses (d.setting s) w.setting tokens.old tokens.new) }
    ensures err { IfErr result (Fails w.setting tokens.old) }
{
    let name = name(alloc, tokens)?;
    sign(tokens, Terminal::Assign)?;
    let line = tokens.line();
    let value = setting_value(alloc, tokens)?;
    Ok(Setting { name, line, value })
}

/// Settings with commas between them.
fn some_settings(alloc: Global, tokens: &mut Cursor<'_, '_>) -> Result<Items<Setting>, Stop>
    ensures ok { IfOk result (λ ss. Parses (d.task_settings ss) (w.list_of w.setting) tokens.old tokens.new) }
    ensures err { IfErr result (Fails (w.list_of w.setting) tokens.old) }
{
    let mut found = Items::new(alloc);
    let first = setting(alloc, tokens)?;
    found.push(first)?;
    while eat(tokens, Terminal::Comma) {
        let one = setting(alloc, tokens)?;
        found.push(one)?;
    }
    Ok(found)
}

/// The settings of a task, if any.
fn settings(alloc: Global, tokens: &mut Cursor<'_, '_>) -> Result<Items<Setting>, Stop>
    ensures ok { IfOk result (λ ss. Parses (d.task_settings ss) w.settings tokens.old tokens.new) }
    ensures err { IfErr result (Fails w.settings tokens.old) }
{
    if !is_next(tokens, Terminal::Word) {
        return Ok(Items::new(alloc));
    }
    let found = some_settings(alloc, tokens)?;
    Ok(found)
}

/// `TASK name(setting, ..);`
fn task(alloc: Global, tokens: &mut Cursor<'_, '_>) -> Result<TaskSpec, Stop>
    ensures ok { IfOk result (λ t. Parses (d.task t) w.task tokens.old tokens.new) }
    ensures err { IfErr result (Fails w.task tokens.old) }
{
    let line = tokens.line();
    sign(tokens, Terminal::Task)?;
    let name = name(alloc, tokens)?;
    sign(tokens, Terminal::Open)?;
    let settings = settings(alloc, tokens)?;
    sign(tokens, Terminal::Close)?;
    sign(tokens, Terminal::Semicolon)?;
    Ok(TaskSpec {
        line,
        name,
        settings,
    })
}

/// `PROGRAM name WITH task : program;`
fn instance(alloc: Global, tokens: &mut Cursor<'_, '_>) -> Result<InstanceSpec, Stop>
    ensures ok { IfOk result (λ i. Parses (d.instance i) w.instance tokens.old tokens.new) }
    ensures err { IfErr result (Fails w.instance tokens.old) }
{
    let line = tokens.line();
    sign(tokens, Terminal::Program)?;
    let own = name(alloc, tokens)?;
    sign(tokens, Terminal::With)?;
    let task = name(alloc, tokens)?;
    sign(tokens, Terminal::Colon)?;
    let program = name(alloc, tokens)?;
    sign(tokens, Terminal::Semicolon)?;
    Ok(InstanceSpec {
        line,
        name: own,
        task,
        program,
    })
}

fn task_list(alloc: Global, tokens: &mut Cursor<'_, '_>) -> Result<Items<TaskSpec>, Stop>
    ensures ok { IfOk result (λ found. Parses (g.each d.task found) (f.several w.task) tokens.old tokens.new) }
    ensures err { IfErr result (Fails (f.several w.task) tokens.old) }
{
    let mut found = Items::new(alloc);
    while is_next(tokens, Terminal::Task) {
        let one = task(alloc, tokens)?;
        found.push(one)?;
    }
    Ok(found)
}

fn instance_list(alloc: Global, tokens: &mut Cursor<'_, '_>) -> Result<Items<InstanceSpec>, Stop>
    ensures ok { IfOk result (λ found. Parses (g.each d.instance found) (f.several w.instance) tokens.old tokens.new) }
    ensures err { IfErr result (Fails (f.several w.instance) tokens.old) }
{
    let mut found = Items::new(alloc);
    while is_next(tokens, Terminal::Program) {
        let one = instance(alloc, tokens)?;
        found.push(one)?;
    }
    Ok(found)
}

fn tasks(alloc: Global, tokens: &mut Cursor<'_, '_>) -> Result<Schedule, Stop>
    ensures ok { IfOk result (λ t. Parses (Scheduled t) w.tasks tokens.old tokens.new) }
    ensures err { IfErr result (Fails w.tasks tokens.old) }
{
    let tasks = task_list(alloc, tokens)?;
    let instances = instance_list(alloc, tokens)?;
    Ok(Schedule { tasks, instances })
}

/// `RESOURCE name ON processor .. END_RESOURCE`
fn resource(alloc: Global, tokens: &mut Cursor<'_, '_>) -> Result<Placement, Stop>
    ensures ok { IfOk result (λ i. Parses (Placed i) w.resource tokens.old tokens.new) }
    ensures err { IfErr result (Fails w.resource tokens.old) }
{
    sign(tokens, Terminal::Resource)?;
    let own = name(alloc, tokens)?;
    sign(tokens, Terminal::On)?;
    let processor = name(alloc, tokens)?;
    let globals = global_sections(alloc, tokens)?;
    let schedule = tasks(alloc, tokens)?;
    let schedule = Held::new(schedule);
    sign(tokens, Terminal::EndResource)?;
    let schedule = schedule.into_inner();
    Ok(Placement {
        resource: Some(Resource {
            name: own,
            processor,
            globals,
        }),
        schedule,
    })
}

fn inner(alloc: Global, tokens: &mut Cursor<'_, '_>) -> Result<Placement, Stop>
    ensures ok { IfOk result (λ i. Parses (Placed i) w.inner tokens.old tokens.new) }
    ensures err { IfErr result (Fails w.inner tokens.old) }
{
    if is_next(tokens, Terminal::Resource) {
        let placement = resource(alloc, tokens)?;
        return Ok(placement);
    }
    let schedule = tasks(alloc, tokens)?;
    Ok(Placement {
        resource: None,
        schedule,
    })
}

pub fn configuration(alloc: Global, tokens: &mut Cursor<'_, '_>) -> Result<Configuration<u32>, Stop>
    ensures ok { IfOk result (λ k. Parses (d.configuration k) w.configuration tokens.old tokens.new) }
    ensures err { IfErr result (Fails w.configuration tokens.old) }
{
    let line = tokens.line();
    sign(tokens, Terminal::Configuration)?;
    let name = name(alloc, tokens)?;
    let globals = global_sections(alloc, tokens)?;
    let inner = inner(alloc, tokens)?;
    let inner = Held::new(inner);
    sign(tokens, Terminal::EndConfiguration)?;
    let inner = inner.into_inner();
    let Placement { resource, schedule } = inner;
    let Schedule { tasks, instances } = schedule;
    Ok(Configuration {
        line,
        name,
        globals,
        resource,
        tasks,
        instances,
    })
}
