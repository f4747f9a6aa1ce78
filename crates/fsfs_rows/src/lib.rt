//! Revision files as others write them, and what becomes of them when bytes are lost or changed; files against the nodes
//! that they are to have, read and written; and the small files of a folder in both formats.
#![tactic(auto)]

#[cfg(test)]
mod accepting;
#[cfg(test)]
mod full_list;
#[cfg(test)]
mod nodes;
#[cfg(test)]
mod property_lists;
#[cfg(test)]
mod revisions;
#[cfg(test)]
mod small_files;
#[cfg(test)]
mod writing;
