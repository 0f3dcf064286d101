//! Tests of records that are read, admitted, kept and reported, one at a time.
#![tactic(auto)]

#[cfg(test)]
mod tests;
