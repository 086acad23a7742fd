//! Tests of the book and its exchange, and of sessions and their words. Each has a folder of its
//! own. `row_tests` has the runs.
#![tactic(auto)]

#[cfg(test)]
mod tests;
