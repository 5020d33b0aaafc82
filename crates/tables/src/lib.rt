// What a loaded file's commands look up in one step, a column each.
#![tactic(auto)]

pub mod columns;

pub use columns::{BUCKETS, FIELDS, Tables};
