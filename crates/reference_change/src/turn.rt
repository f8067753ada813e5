//! What the phases of a change look into.

use change_names::Change;
use reference_tasks::Loaded;

/// A change, which regions of the new program are kept, and both programs with the tables with which they are run.
#[derive(Clone, Copy)]
pub struct Turn<'c, 's, 'k, 'o, 'p, 'n, 'q> {
    pub change: Change<'c, 's>,
    pub kept: &'k [bool],
    pub old: &'o Loaded<'p>,
    pub new: &'n Loaded<'q>,
}
