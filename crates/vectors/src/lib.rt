//! Vectors of the leaf crates: what other sources say of the same bytes.
#![tactic(auto)]

#[cfg(test)]
mod challenges;
#[cfg(test)]
mod command_lines;
#[cfg(test)]
mod deltas;
#[cfg(test)]
mod moments;
#[cfg(test)]
mod paths;
#[cfg(test)]
mod streams;
