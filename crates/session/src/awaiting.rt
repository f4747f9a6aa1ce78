//! What a session waits for.
ghost use Rattle.std.specs.Prelude.{◌≡◌};
ghost use Rattle.session.specs.Awaiting.{awaited};

use guests::Awaited;
use machine::Phase;

/// Says what is awaited in a phase.
pub fn awaited_in<E, G>(phase: &Phase<E, G>) -> Awaited
    ensures { result ≡ awaited phase.now }
{
    match phase {
        Phase::Greeted => Awaited::Login,
        Phase::LoggingIn(_) => Awaited::Login,
        Phase::Challenged(_) => Awaited::Login,
        Phase::Serving(_) => Awaited::Command,
        Phase::Editing(_) => Awaited::Edit,
        Phase::Skipping(_) => Awaited::Edit,
        Phase::Reporting(_) => Awaited::Report,
        Phase::Driven(_) => Awaited::Report,
        Phase::Ended => Awaited::Nothing,
    }
}
