//! Tests of whole runs of shares, over files and sinks in memory.
#![tactic(auto)]

#[cfg(test)]
mod cases;
#[cfg(test)]
mod devices;
#[cfg(test)]
mod lines;
#[cfg(test)]
mod models;
#[cfg(test)]
mod runs;
#[cfg(test)]
mod shares;
#[cfg(test)]
mod tests;
#[cfg(test)]
mod texts;
