//! Configurations, tasks and program instances (IEC 61131-3:2013, 6.8).

use crate::declaration::Section;
use crate::name::Name;
use plc_text::{Items, Text};

/// The value of a task's setting, in upper case.
#[derive(Debug, Drop, PartialEq, Eq)]
pub enum SettingValue {
    Int(Text),
    Time(Text),
}

/// `name := value`, with the line of the value.
#[derive(Debug, Drop, PartialEq, Eq)]
pub struct Setting {
    pub name: Name,
    pub line: u32,
    pub value: SettingValue,
}

/// `TASK name(setting, ..);` with the line of TASK.
pub struct TaskSpec {
    pub line: u32,
    pub name: Name,
    pub settings: Items<Setting>,
}

impl Drop for TaskSpec {
    fn drop(self) {
        let TaskSpec {
            line: _,
            name,
            settings,
        } = self;
        drop(name);
        drop(settings);
    }
}

/// `PROGRAM name WITH task : program;` with the line of PROGRAM.
#[derive(Debug, PartialEq, Eq)]
pub struct InstanceSpec {
    pub line: u32,
    pub name: Name,
    pub task: Name,
    pub program: Name,
}

// By hand, so that a drop is one call: a derived one is written out wherever a `?` may need it, and a proof goes over each part.
impl Drop for InstanceSpec {
    fn drop(self) {
        let InstanceSpec {
            line: _,
            name,
            task,
            program,
        } = self;
        drop(name);
        drop(task);
        drop(program);
    }
}

/// `RESOURCE name ON processor`, and its globals.
pub struct Resource<A> {
    pub name: Name,
    pub processor: Name,
    pub globals: Items<Section<A>>,
}

impl<A: Drop> Drop for Resource<A> {
    fn drop(self) {
        let Resource {
            name,
            processor,
            globals,
        } = self;
        drop(name);
        drop(processor);
        drop(globals);
    }
}

/// A configuration, with the line of CONFIGURATION. Its tasks and instances are those of its resource, where it has one.
pub struct Configuration<A> {
    pub line: u32,
    pub name: Name,
    pub globals: Items<Section<A>>,
    pub resource: Option<Resource<A>>,
    pub tasks: Items<TaskSpec>,
    pub instances: Items<InstanceSpec>,
}

impl<A: Drop> Drop for Configuration<A> {
    fn drop(self) {
        let Configuration {
            line: _,
            name,
            globals,
            resource,
            tasks,
            instances,
        } = self;
        drop(name);
        drop(globals);
        drop(resource);
        drop(tasks);
        drop(instances);
    }
}
