//! Tests of numbers and of the tables of places and forms.
#![tactic(auto)]

#[cfg(test)]
mod tests;
