//! Whole runs of the planner over photometric files, claims and shelves that fail: tests alone. They stand apart from those of the top
//! call's own crate, since the tests of a crate are proved one after another.
#![tactic(auto)]

#[cfg(test)]
mod tests;
