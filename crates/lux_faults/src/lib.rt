//! What stands in the way of the planner: files and outputs that fail, and all that is refused. Tests alone; they stand apart from the
//! other tests of whole runs, since the tests of a crate are proved one after another.
#![tactic(auto)]

#[cfg(test)]
mod tests;
