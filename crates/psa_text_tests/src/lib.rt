//! Tests of the public calls of psa_text. They stand here, so that it is proved once.
#![tactic(auto)]

#[cfg(test)]
mod lines;
#[cfg(test)]
mod models;
#[cfg(test)]
mod notation;
#[cfg(test)]
mod outlines;
#[cfg(test)]
mod scanners;
#[cfg(test)]
mod texts;
