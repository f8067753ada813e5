//! A reader that takes the lines of a scenario one after another.

ghost use Rattle.std.specs.Prelude.{◌≡◌, ◌++◌, None, Some, IfOk, OnOk, MatchBool, option_map};
ghost use Rattle.plc_text.specs.Lines.{ended};
ghost use Rattle.st_names.specs.Names.{HasName};
ghost use Rattle.scenario.specs.Scenario.{contents_of};
ghost use Rattle.scenario.specs.Private.Reader as machine;

use crate::play_line::{place_of, read_play};
use crate::played::Played;
use crate::scenario::{Scenario, shared};
use plc_text::{NoMemory, Text, is_word};
use st_names::{AddError, Names};
use std::alloc::Global;
use std::mem;

/// How many sources a scenario may have.
const SOURCE_LIMIT: u32 = 256;

/// Where in a scenario the next line stands.
#[derive(Clone, Copy)]
pub enum Part {
    /// At the beginning.
    Start,
    /// Behind `@program`.
    Program,
    /// Behind `@source NAME`.
    Source,
    /// Behind `@plays`.
    Plays,
    /// Behind `@end`.
    End,
}

/// What was read so far.
pub struct Reader {
    part: Part,
    program: Text,
    /// The sources that have ended.
    sources: Names<Text>,
    /// The name of the source that is being read.
    name: Text,
    /// Its text so far.
    text: Text,
    played: Played,
}

// By hand, so that a drop is one call: a derived one is written out wherever a `?` may need it.
impl Drop for Reader {
    fn drop(self) {
        let Reader {
            part: _,
            program,
            sources,
            name,
            text,
            played,
        } = self;
        drop(program);
        drop(sources);
        drop(name);
        drop(text);
        drop(played);
    }
}

impl Reader {
    pub fn new(alloc: Global) -> Reader
        ensures { result ≡ machine.start }
    {
        Reader {
            part: Part::Start,
            program: Text::new(alloc),
            sources: Names::new(alloc),
            name: Text::new(alloc),
            text: Text::new(alloc),
            played: Played::new(alloc),
        }
    }

    /// Takes the next line, and tells whether it can stand there. A reader whose line cannot is of no further use.
    pub fn take(&mut self, alloc: Global, line: &str) -> Result<bool, NoMemory>
        requires { machine.IsFresh self.old }
        ensures { IfOk result (λ stands. MatchBool stands (machine.step self.old line.now ≡ Some self.new) (machine.step self.old line.now ≡ None)) }
    {
        match self.part {
            Part::Start => Ok(self.begin(line)),
            Part::Program => self.take_program(alloc, line),
            Part::Source => self.take_source(alloc, line),
            Part::Plays => self.take_play(alloc, line),
            Part::End => Ok(line.is_empty()),
        }
    }

    /// Takes the first line.
    fn begin(&mut self, line: &str) -> bool
        ensures { MatchBool result (machine.step_in Part.Start self.old line.now ≡ Some self.new) (machine.step_in Part.Start self.old line.now ≡ None) }
    {
        if line != "@program" {
            return false;
        }
        self.part = Part::Program;
        true
    }

    /// Takes a line of the first program, or the directive behind it.
    fn take_program(&mut self, alloc: Global, line: &str) -> Result<bool, NoMemory>
        ensures { IfOk result (λ stands. MatchBool stands (machine.step_in Part.Program self.old line.now ≡ Some self.new) (machine.step_in Part.Program self.old line.now ≡ None)) }
    {
        if is_directive(line) {
            return self.take_directive(alloc, line);
        }
        push_line(&mut self.program, line)?;
        Ok(true)
    }

    /// Takes a line of a source, or the directive behind it.
    fn take_source(&mut self, alloc: Global, line: &str) -> Result<bool, NoMemory>
        requires { HasName self.old.sources self.old.name → ⊥ }
        ensures { IfOk result (λ stands. MatchBool stands (machine.step_in Part.Source self.old line.now ≡ Some self.new) (machine.step_in Part.Source self.old line.now ≡ None)) }
    {
        if is_directive(line) {
            self.end_source(alloc)?;
            return self.take_directive(alloc, line);
        }
        push_line(&mut self.text, line)?;
        Ok(true)
    }

    /// Adds the source that was being read to those that have ended, of which none has its name.
    fn end_source(&mut self, alloc: Global) -> Result<(), NoMemory>
        requires { HasName self.old.sources self.old.name → ⊥ }
        ensures { OnOk result (self.new ≡ machine.with_source self.old) }
    {
        let name = mem::replace(&mut self.name, Text::new(alloc));
        let text = mem::replace(&mut self.text, Text::new(alloc));
        match self.sources.add(name, text) {
            Ok(_) => Ok(()),
            Err(AddError::NoMemory { .. }) => Err(NoMemory),
            Err(AddError::Taken { .. }) => unreachable!(),
        }
    }

    /// Takes a line that begins with `@`, behind the first program or a source.
    fn take_directive(&mut self, alloc: Global, line: &str) -> Result<bool, NoMemory>
        ensures { IfOk result (λ stands. MatchBool stands (machine.directed self.old line.now ≡ Some self.new) (machine.directed self.old line.now ≡ None)) }
    {
        if line == "@plays" {
            self.part = Part::Plays;
            return Ok(true);
        }
        match line.strip_prefix("@source ") {
            Some(name) => self.open_source(alloc, name),
            None => Ok(false),
        }
    }

    /// Begins a source of this name, if no source has it and the limit allows one more.
    fn open_source(&mut self, alloc: Global, name: &str) -> Result<bool, NoMemory>
        ensures { IfOk result (λ stands. MatchBool stands (machine.opened self.old name.now ≡ Some self.new) (machine.opened self.old name.now ≡ None)) }
    {
        if !is_word(name.as_bytes()) {
            return Ok(false);
        }
        let name = Text::folded(alloc, name)?;
        if place_of(&self.sources, &name).is_some() || self.sources.len() >= SOURCE_LIMIT {
            return Ok(false);
        }
        self.name = name;
        self.part = Part::Source;
        Ok(true)
    }

    /// Takes a line among the plays.
    fn take_play(&mut self, alloc: Global, line: &str) -> Result<bool, NoMemory>
        ensures { IfOk result (λ stands. MatchBool stands (machine.played_on self.old line.now ≡ Some self.new) (machine.played_on self.old line.now ≡ None)) }
    {
        if line == "@end" {
            self.part = Part::End;
            self.played.end_phase()?;
            return Ok(true);
        }
        if line == "sync" {
            self.played.end_phase()?;
            return Ok(true);
        }
        match read_play(alloc, &self.sources, line)? {
            Some(play) => self.played.add(alloc, play),
            None => Ok(false),
        }
    }

    /// The scenario, if the lines were all of one.
    pub fn finish(self, alloc: Global) -> Result<Option<Scenario>, NoMemory>
        ensures { IfOk result (λ scenario. option_map contents_of scenario ≡ machine.outcome self.part self) }
    {
        match self.part {
            Part::End => Ok(Some(self.into_scenario(alloc)?)),
            _ => Ok(None),
        }
    }

    fn into_scenario(self, alloc: Global) -> Result<Scenario, NoMemory>
        ensures { IfOk result (λ scenario. contents_of scenario ≡ machine.held_by self) }
    {
        let Reader {
            part: _,
            program,
            sources,
            name,
            text,
            played,
        } = self;
        drop(name);
        drop(text);
        let (plays, phases) = played.into_parts();
        shared(alloc, program, sources, plays, phases)
    }
}

/// Whether the line begins with `@`, as no line of a source does.
fn is_directive(line: &str) -> bool
    ensures { result ≡ machine.is_directive line.now }
{
    line.starts_with('@')
}

/// Adds a line of a source and the LF that ends it.
fn push_line(text: &mut Text, line: &str) -> Result<(), NoMemory>
    ensures { OnOk result (text.new ≡ text.old ++ ended line.now) }
{
    text.push_str(line)?;
    text.push_str("\n")
}
