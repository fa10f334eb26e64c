//! Tests of the public calls on diagrams: the node table, connectives, families, cut sets and prime
//! implicants.
#![tactic(auto)]

#[cfg(test)]
mod calls;
#[cfg(test)]
mod graphs;
#[cfg(test)]
mod lines;
#[cfg(test)]
mod making;
#[cfg(test)]
mod primes;
#[cfg(test)]
mod remembering;
#[cfg(test)]
mod rows;
#[cfg(test)]
mod tests;
#[cfg(test)]
mod triples;
