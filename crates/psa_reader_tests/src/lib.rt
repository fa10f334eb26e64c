//! Tests of the reader, from the texts of files to their draft or their first fault of shape.
#![tactic(auto)]

#[cfg(test)]
mod accepted;
#[cfg(test)]
mod documents;
#[cfg(test)]
mod drafts;
#[cfg(test)]
mod lines;
#[cfg(test)]
mod order;
#[cfg(test)]
mod outlines;
#[cfg(test)]
mod refused;
#[cfg(test)]
mod rows;
#[cfg(test)]
mod tests;
