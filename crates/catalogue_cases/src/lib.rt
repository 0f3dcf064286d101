//! Tests of catalogues in memory and in a journal, and of what is written of them.
#![tactic(auto)]

#[cfg(test)]
mod tests;
