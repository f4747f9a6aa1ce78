//! How long a client may send nothing.
ghost use Rattle.std.specs.Prelude.{◌≡◌};
ghost use Rattle.guests.specs.Silence.{ending_at, is_of_login, is_ready_at, patience, silence_at};

use crate::awaited::Awaited;
use crate::guest::Guest;

/// How long a login may take, in milliseconds.
pub const LOGIN_LIMIT: u64 = 120_000;

/// How long a client may send nothing, in milliseconds.
pub const SILENCE_LIMIT: u64 = 3_600_000;

/// How long a client may send nothing while others wait for a place, in milliseconds, between two commands.
pub(crate) const COMMAND_PATIENCE: u64 = 10_000;

/// How long it may do so within a login or a report.
pub(crate) const LONG_PATIENCE: u64 = 120_000;

/// Why a session ends by its client's silence.
#[derive(Clone, Copy, Debug, PartialEq, Eq)]
pub enum Ending {
    /// Its login has taken too long.
    NoLogin,
    /// Its client has sent nothing for as long as any may.
    Silent,
    /// Another client waits for its place.
    GivesPlace,
}

/// Says whether a session awaits what belongs to a login.
pub(crate) fn is_of_login(awaited: Awaited) -> bool
    ensures { result ≡ is_of_login awaited }
{
    matches!(awaited, Awaited::Login)
}

/// Says for how long a session's client has sent nothing.
pub(crate) fn silence_at(now: u64, guest: &Guest) -> u64
    ensures { result ≡ silence_at now guest.now }
{
    if guest.is_waiting {
        now.saturating_sub(guest.since)
    } else {
        0
    }
}

/// Says how long a session's client may send nothing while others wait for a place; none where it may for longer.
pub(crate) fn patience(guest: &Guest) -> Option<u64>
    ensures { result ≡ patience guest.now.awaited guest.now.has_sent }
{
    match guest.awaited {
        Awaited::Login if guest.has_sent => Some(LONG_PATIENCE),
        Awaited::Login | Awaited::Command => Some(COMMAND_PATIENCE),
        Awaited::Report => Some(LONG_PATIENCE),
        Awaited::Edit | Awaited::Nothing => None,
    }
}

/// Says whether a session gives its place up as soon as somebody waits for it.
pub(crate) fn is_ready_at(now: u64, guest: &Guest) -> bool
    ensures { result ≡ is_ready_at now guest.now }
{
    match patience(guest) {
        Some(limit) => !guest.leaves && silence_at(now, guest) >= limit,
        None => false,
    }
}

/// Says why a session ends, whoever waits.
pub(crate) fn ending_at(now: u64, guest: &Guest) -> Option<Ending>
    ensures { result ≡ ending_at now guest.now }
{
    if is_of_login(guest.awaited) && now.saturating_sub(guest.login_since) >= LOGIN_LIMIT {
        Some(Ending::NoLogin)
    } else if silence_at(now, guest) >= SILENCE_LIMIT {
        Some(Ending::Silent)
    } else {
        None
    }
}
