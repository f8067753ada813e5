//! Lists whose items can be lent for a change and put in one another's place.

mod series;

pub use series::Series;
