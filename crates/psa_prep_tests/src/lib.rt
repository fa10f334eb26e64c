//! Tests of ranks, graphs and diagrams of targets, from the texts of files.
#![tactic(auto)]

#[cfg(test)]
mod formulas;
#[cfg(test)]
mod lines;
#[cfg(test)]
mod notation;
#[cfg(test)]
mod outlines;
#[cfg(test)]
mod studies;
#[cfg(test)]
mod targets;
#[cfg(test)]
mod truths;
