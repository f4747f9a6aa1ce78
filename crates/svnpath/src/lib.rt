//! Paths of a repository: lists of components, their texts, and the URLs that name them.
//!
//! A `Path` is absolute and canonical, and contracts see it as the list of its components, each a
//! list of bytes. A text or a URL that names no path is refused by a `PathFault`; which one is said
//! by the definitions `beneath` and `path_of_url`.
#![tactic(auto)]

mod component;
mod fault;
mod listings;
mod path;
mod repository_url;

pub use component::{COMPONENT_LIMIT, DEPTH_LIMIT, is_component};
pub use fault::PathFault;
pub use listings::{by_text, pairs_by_text, sort_by_text};
pub use path::Path;
pub use repository_url::{RepositoryUrl, root_url};
