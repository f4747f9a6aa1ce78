//! What an entry that a drive opens or adds is told of itself.
#![tactic(auto)]

mod differing;
mod entry_changes;
mod had;
mod laws;
mod news;
mod property_changes;
mod telling;
mod texts;

pub use differing::entries_differ;
pub use laws::{entry_properties_are_told, news_lead};
pub use news::{Had, News, Place, PropertyChanges, Sight};
pub use telling::news_of;
