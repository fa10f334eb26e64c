//! Tests of whole runs of the program, over files and sinks in memory.
#![tactic(auto)]

#[cfg(test)]
mod cases;
#[cfg(test)]
mod cut;
#[cfg(test)]
mod devices;
#[cfg(test)]
mod examples;
#[cfg(test)]
mod formulas;
#[cfg(test)]
mod limits;
#[cfg(test)]
mod lines;
#[cfg(test)]
mod models;
#[cfg(test)]
mod nodes;
#[cfg(test)]
mod quantities;
#[cfg(test)]
mod refusals;
#[cfg(test)]
mod runs;
#[cfg(test)]
mod sample;
#[cfg(test)]
mod tests;
#[cfg(test)]
mod texts;
#[cfg(test)]
mod trees;
