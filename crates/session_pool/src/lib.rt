//! Sessions on threads: a fixed number of workers take connections from a channel.
#![tactic(auto)]

mod admission;
mod admitting;
mod attendant;
mod places;
mod pool;
mod reading;
mod terms;
mod visit;

pub use admission::Admission;
pub use attendant::{Attendant, Caller};
pub use conversations::{Env, EnvSource, Gate, TalkFault, Watch};
pub use pool::SessionPool;
pub use reading::Reading;
pub use terms::Terms;
pub use visit::Visit;
