//! Folders whose files are damaged, folders that were not made to their end, repositories that are changed and opened
//! again; and stores in folders of the system: what they write and read, and what they leave alone.
#![tactic(auto)]

#[cfg(test)]
mod changes;
#[cfg(test)]
mod files;
#[cfg(test)]
mod flawed;
#[cfg(test)]
mod folders;
#[cfg(test)]
mod links;
#[cfg(test)]
mod migrating;
#[cfg(test)]
mod rooms;
#[cfg(test)]
mod shards;
#[cfg(test)]
mod stores;
