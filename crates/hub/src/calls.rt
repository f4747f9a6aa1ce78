//! Any calls of any sessions.
ghost use Rattle.std.specs.Prelude.{◌≡◌, ◌++◌, [], ◌∷◌, IfOk, OnOk, OnErr};
ghost use Rattle.hub.specs.{declared.calls.Outcome.Outcome, Calls.{CallStep, CallRun, BeginsCalls}};

use crate::hub::{Hub, HubFault, SessionId};
use access::SoleAccess;
use machine::Env;
use std::alloc::{AllocError, Global};

/// A call of a hub.
#[derive(Drop)]
pub enum Call {
    Connect,
    Feed(SessionId, Vec<u8>, Env),
    Disconnect(SessionId),
}

/// What a call answers.
#[derive(Drop)]
pub enum Outcome {
    Connected(SessionId, Vec<u8>),
    Wrote(Vec<u8>),
    Dropped,
    Failed(HubFault),
}

/// Makes one call.
pub fn make_call<A: SoleAccess>(hub: &mut Hub<A>, call: &Call) -> Outcome
    ensures { CallStep hub.old call.now result hub.new }
{
    match call {
        Call::Connect => match hub.connect() {
            Ok((n, out)) => Outcome::Connected(n, out),
            Err(e) => Outcome::Failed(e),
        },
        Call::Feed(n, piece, env) => match hub.feed(*n, piece, *env) {
            Ok(out) => Outcome::Wrote(out),
            Err(e) => Outcome::Failed(e),
        },
        Call::Disconnect(n) => {
            hub.disconnect(*n);
            Outcome::Dropped
        }
    }
}

/// Makes one call, and adds what it answers, where there is memory for that.
fn add_call<A: SoleAccess>(
    hub: &mut Hub<A>,
    call: &Call,
    outcomes: &mut Vec<Outcome>,
) -> Result<(), AllocError>
    ensures { (outcome : Outcome) × CallStep hub.old call.now outcome hub.new
        × OnOk result (outcomes.new.items ≡ outcomes.old.items ++ outcome ∷ []) }
{
    match outcomes.push(make_call(hub, call)) {
        Ok(()) => Ok(()),
        Err(_) => Err(AllocError),
    }
}

/// Makes calls in order. Whatever bytes the sessions send, cut and interleaved however, what is written and
/// what is left are those of one run of the machine. Where memory is refused, some of the calls were made, from the
/// first on.
pub fn make_calls<A: SoleAccess>(
    alloc: Global,
    hub: &mut Hub<A>,
    calls: &[Call],
) -> Result<Vec<Outcome>, AllocError>
    ensures ok { IfOk result (λ outcomes. CallRun hub.old calls.now outcomes.items hub.new) }
    ensures err { OnErr result (BeginsCalls hub.old calls.now hub.new) }
{
    let mut outcomes = Vec::new(alloc);
    for call in calls {
        add_call(hub, call, &mut outcomes)?;
    }
    Ok(outcomes)
}
