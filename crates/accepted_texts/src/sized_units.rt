//! What the program of a good unit lays out is small and few (IEC 61131-3:2013, 6.4, 6.5 and 6.8).

mod sized;

pub use sized::sized_unit_laws;
