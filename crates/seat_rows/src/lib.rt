//! Tests of what seats see and are answered that share a repository in files in memory.
#![tactic(auto)]

#[cfg(test)]
mod commits;
#[cfg(test)]
mod files;
#[cfg(test)]
mod halts;
#[cfg(test)]
mod looks;
#[cfg(test)]
mod places;
#[cfg(test)]
mod plays;
#[cfg(test)]
mod properties;
#[cfg(test)]
mod releases;
#[cfg(test)]
mod saves;
#[cfg(test)]
mod sixteen;
#[cfg(test)]
mod stopped;
#[cfg(test)]
mod stores;
