//! Where jumps of statements lead.

/// Where EXIT, CONTINUE and RETURN lead: how many cells stand from there on.
#[derive(Clone, Copy)]
pub struct Destinations {
    pub exit: usize,
    /// Where CONTINUE leads.
    pub next: usize,
    /// Where RETURN leads.
    pub end: usize,
}
