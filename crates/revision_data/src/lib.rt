//! What a revision has beside its tree: its changes, noted edit by edit while its transaction is open, and its
//! properties; and what is judged by the number of the youngest revision alone.
#![tactic(auto)]

mod change_list;
mod changes;
mod judging;
mod noting;
mod path_map;
mod properties;
mod txn_changes;

pub use change_list::ChangeList;
pub use judging::{current_refusal, property_refusal};
pub use path_map::{paths_beneath, put, take_out, take_out_each};
pub use properties::{changed_property, opening_properties, revision_properties};
pub use txn_changes::{Note, TxnChanges};
