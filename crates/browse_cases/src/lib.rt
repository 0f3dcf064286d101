//! Tests of a reader beside loaders, and of pages around a `take`.
#![tactic(auto)]

#[cfg(test)]
mod tests;
