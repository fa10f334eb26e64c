//! Tests of the public calls of psa_chains.
#![tactic(auto)]

#[cfg(test)]
mod chains;
