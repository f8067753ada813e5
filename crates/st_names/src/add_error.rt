//! Why a name is not added.

use plc_text::Text;

/// Why a name was not added. Its name and value come back.
#[derive(Debug, Drop)]
pub enum AddError<V> {
    /// The table has the name already, at the place `first`.
    Taken { first: u32, key: Text, value: V },
    /// There is no memory, or the table has 2^32 - 1 names.
    NoMemory { key: Text, value: V },
}
