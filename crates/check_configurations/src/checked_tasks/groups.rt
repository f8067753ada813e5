//! The regions that each task runs, from one pass over all regions.

ghost use Rattle.std.specs.Prelude.{◌≡◌, ◌<◌, ◌∷◌, [], ◌++◌, map, length, slice_index_or, slice_set, IfOk, OnOk};
ghost use Rattle.std.specs.Map.{keys_of};
ghost use Rattle.plc_text.specs.Words.{same};
ghost use Rattle.check_regions.specs.unit_regions.Listed.{region_as};
ghost use Rattle.check_configurations.specs.checked_tasks.Private.Lists.{Adds, is_run, numbers_in};
ghost use Rattle.check_configurations.specs.checked_tasks.Private.Groups.{Groups};

use check_regions::UnitRegion;
use class_rows::number_of;
use plc_text::{Items, NoMemory, Text, one_more};
use st_names::Names;
use std::alloc::Global;

/// The numbers of the program instances, a list for each task by its name.
pub struct TaskRegions {
    tasks: Names<()>,
    numbers: Vec<Items<u32>>,
}

// By hand, so that a drop is one call: a derived one is written out wherever a `?` may need it.
impl Drop for TaskRegions {
    fn drop(self) {
        let TaskRegions { tasks, numbers } = self;
        drop(tasks);
        drop(numbers);
    }
}

/// Adds a number to the list at a place.
fn add_at(lists: &mut Vec<Items<u32>>, place: u32, number: u32) -> Result<(), NoMemory>
    requires { place < length lists.old.items }
    ensures { OnOk result (lists.new.items ≡ slice_set lists.old.items place (slice_index_or lists.old.items place [] ++ number ∷ [])) }
{
    let list = &mut lists[place as usize];
    list.push(number)?;
    Ok(())
}

fn list_of(alloc: Global, number: u32) -> Result<Items<u32>, NoMemory>
    ensures { IfOk result (λ list. list ≡ number ∷ []) }
{
    let mut list = Items::new(alloc);
    list.push(number)?;
    Ok(list)
}

impl TaskRegions {
    /// Adds a task that is not there, with one number.
    fn add_task(&mut self, alloc: Global, task: &Text, number: u32) -> Result<(), NoMemory>
        ensures tasks { OnOk result (keys_of self.new.tasks ≡ keys_of self.old.tasks ++ task.now ∷ []) }
        ensures numbers { OnOk result (self.new.numbers.items ≡ self.old.numbers.items ++ (number ∷ []) ∷ []) }
    {
        let list = list_of(alloc, number)?;
        let name = Text::copy(alloc, task.as_str())?;
        self.numbers.push(list)?;
        match self.tasks.add(name, ()) {
            Ok(_) => Ok(()),
            Err(_) => Err(NoMemory),
        }
    }

    /// Adds a number to those of a task.
    fn add(&mut self, alloc: Global, task: &Text, number: u32) -> Result<(), NoMemory>
        requires { length self.old.numbers.items ≡ length (keys_of self.old.tasks) }
        ensures { OnOk result (Adds (keys_of self.old.tasks) self.old.numbers.items (keys_of self.new.tasks) self.new.numbers.items (λ name. same task.now name) number) }
    {
        match number_of(&self.tasks, task) {
            Some(place) => {
                add_at(&mut self.numbers, place, number)?;
                Ok(())
            }
            None => {
                self.add_task(alloc, task, number)?;
                Ok(())
            }
        }
    }

    /// Adds the number of a region to those of its task, if it is an instance.
    fn add_region(
        &mut self,
        alloc: Global,
        region: &UnitRegion<'_>,
        number: u32,
    ) -> Result<(), NoMemory>
        requires { length self.old.numbers.items ≡ length (keys_of self.old.tasks) }
        ensures { OnOk result (Adds (keys_of self.old.tasks) self.old.numbers.items (keys_of self.new.tasks) self.new.numbers.items (λ name. is_run name (region_as region.now)) number) }
    {
        match region {
            UnitRegion::Global(_) => Ok(()),
            UnitRegion::Instance(instance) => {
                self.add(alloc, &instance.task.text, number)?;
                Ok(())
            }
        }
    }

    /// The instances among these regions, in time linear in them.
    pub fn build(alloc: Global, regions: &[UnitRegion<'_>]) -> Result<TaskRegions, NoMemory>
        ensures { IfOk result (λ t. Groups t (map region_as regions.now)) }
    {
        let mut groups = TaskRegions {
            tasks: Names::new(alloc),
            numbers: Vec::new(alloc),
        };
        let mut number = 0u32;
        for region in regions {
            groups.add_region(alloc, region, number)?;
            number = one_more(number)?;
        }
        Ok(groups)
    }

    /// The numbers of the instances that run with the task, rising.
    pub fn numbers_of(&self, alloc: Global, task: &Text) -> Result<Items<u32>, NoMemory>
        ensures { IfOk result (λ numbers. numbers ≡ numbers_in (keys_of self.now.tasks) self.now.numbers.items task.now) }
    {
        match number_of(&self.tasks, task) {
            Some(place) => match self.numbers.get(place as usize) {
                Some(list) => {
                    let copy = Items::from_slice(alloc, list.as_slice())?;
                    Ok(copy)
                }
                None => Ok(Items::new(alloc)),
            },
            None => Ok(Items::new(alloc)),
        }
    }
}
