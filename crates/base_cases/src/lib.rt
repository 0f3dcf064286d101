//! Tests of the objects in memory and over real files, and of a journal over them.
#![tactic(auto)]

#[cfg(test)]
mod tests;
