//! How a step of a session tells its client: what comes before an answer, the answer, or a refusal in its
//! place.
#![tactic(auto)]

mod preface;
mod serving;
mod turn;

pub use preface::{Preface, say_behind, say_new_behind, say_preface};
pub use serving::{end_halted, refuse, refuse_at, tell, tell_fault};
pub use turn::{SessionEdit, SessionPhase, SessionReport, end_malformed, stands};
