//! What a Subversion repository is: trees of entries, edits, changes, revisions, locks, and the calls by
//! which the layers above reach it.
#![tactic(auto)]

mod ask;
mod change;
mod dates;
mod edit;
mod entry;
mod fault;
mod file_text;
mod held;
mod held_texts;
mod judging;
mod limits;
mod lock;
mod lock_ask;
mod properties;
mod property_ask;
mod property_rows;
mod reading_texts;
mod repository;
mod rows;
mod values;

pub use ask::CommitAsk;
pub use change::{Action, Change, Source};
pub use dates::{date_of, is_date_text, is_up_to};
pub use edit::EditOp;
pub use entry::{Content, Entry, Mark, NodeKind};
pub use fault::ChangeFault;
pub use file_text::FileText;
pub use held_texts::HeldTexts;
pub use judging::{is_older, is_property_name};
pub use limits::{LOCK_LIMIT, PROPERTY_NAME_LIMIT, REVISION_LIMIT, TEXT_LIMIT};
pub use lock::{Lock, LockTokens};
pub use lock_ask::{LockAsk, UnlockAsk};
pub use properties::{Properties, is_same_value};
pub use property_ask::{PreviousValue, PropertyAsk};
pub use property_rows::PropertyRows;
pub use reading_texts::Texts;
pub use repository::Repository;
pub use values::PropertyValue;
