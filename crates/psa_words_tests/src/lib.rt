//! Tests of the public calls of psa_number, psa_ports and psa_words.
#![tactic(auto)]

#[cfg(test)]
mod lines;
#[cfg(test)]
mod number_rows;
#[cfg(test)]
mod numbers;
#[cfg(test)]
mod port_rows;
#[cfg(test)]
mod ports;
#[cfg(test)]
mod rows;
#[cfg(test)]
mod system;
#[cfg(test)]
mod tests;
#[cfg(test)]
mod word_rows;
#[cfg(test)]
mod words;
