//! Tests of the resolving of names, from the texts of files to their model or their first fault.
#![tactic(auto)]

#[cfg(test)]
mod accepted;
#[cfg(test)]
mod documents;
#[cfg(test)]
mod lines;
#[cfg(test)]
mod outlines;
#[cfg(test)]
mod refused;
#[cfg(test)]
mod rows;
#[cfg(test)]
mod tests;
#[cfg(test)]
mod worked;
