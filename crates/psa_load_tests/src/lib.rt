//! Tests of the public calls of psa_load, from the texts of files to what is loaded of them: events with their
//! intervals, targets with their paths; and of the lines of a report and of faults.
#![tactic(auto)]

#[cfg(test)]
mod conditions;
#[cfg(test)]
mod lines;
#[cfg(test)]
mod loading;
#[cfg(test)]
mod loads;
#[cfg(test)]
mod outlines;
#[cfg(test)]
mod reports;
#[cfg(test)]
mod texts;
#[cfg(test)]
mod values;
#[cfg(test)]
mod walks;
