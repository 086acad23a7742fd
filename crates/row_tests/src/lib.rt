//! Tests of the crates that speak the language of the data sheets, of those from batches to
//! pictures and orders, and of runs: their worked rows, the text of their definitions, and what no
//! contract of them can say.
#![tactic(auto)]

#[cfg(test)]
mod tests;
