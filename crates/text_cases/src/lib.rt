//! Tests of what stands over bytes and texts alone: words, headings, written records, pieces and workloads.
#![tactic(auto)]

#[cfg(test)]
mod tests;
