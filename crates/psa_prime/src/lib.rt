//! Prime implicants of a decision diagram over the shared node table (Coudert and Madre), by recursion with
//! remembered results.
#![tactic(auto)]

mod primes;

pub use primes::primes_of_bdd;
