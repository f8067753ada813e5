//! What a controller runs, and what it holds between plays.

use plc_text::{Series, Text};
use process_image::Located;
use reference_tasks::Loaded;
use value_trees::Member;

/// A program with its tables, its variables with addresses, and for each of its tasks the regions of the footprint.
pub struct Plan<'p> {
    pub on: &'p Loaded<'p>,
    pub located: &'p [Located<'p>],
    pub footprints: &'p [Vec<u32>],
}

/// A task that is gone.
#[derive(Drop)]
pub struct Gone {
    /// Its name, in upper case.
    pub name: Text,
    /// The version whose loading removed it last.
    pub version: u32,
}

/// The version that is loaded, its store, the tasks that are held, and those that are gone. The names are in upper case.
pub struct Controller {
    pub version: u32,
    pub store: Series<Member>,
    /// The task that was held last stands first.
    pub held: Vec<Text>,
    pub gone: Vec<Gone>,
}

// By hand, so that a drop is one call: a derived one is written out wherever a `?` may need it, and a proof goes over each part.
impl Drop for Controller {
    fn drop(self) {
        let Controller {
            version: _,
            store,
            held,
            gone,
        } = self;
        drop(store);
        drop(held);
        drop(gone);
    }
}
