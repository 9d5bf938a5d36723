//! What the arguments of `pmb stats` choose.

use crate::fact_arguments::FactArguments;
use crate::fail_list::FailList;

/// In what form sums are written.
#[derive(Clone, Copy, Debug, PartialEq, Eq)]
pub enum StatsForm {
    /// A table for people.
    Table,
    /// Objects of JSON, one a line.
    Objects,
}

/// What the flags of `pmb stats` choose.
#[derive(Drop)]
pub struct StatsArguments {
    /// What the flags choose that `pmb json` has too.
    pub facts: FactArguments,
    /// In what form the sums are written.
    pub form: StatsForm,
    /// What makes the status 1, each once, in the order in which they were first named; `None` where
    /// nothing was said of it.
    pub fail_on: Option<FailList>,
}
