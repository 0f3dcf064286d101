//! Tests of catalogues over a disk in memory, and of a command over a sure room. Whole runs are those of `whole_runs`.
#![tactic(auto)]

#[cfg(test)]
mod tests;
