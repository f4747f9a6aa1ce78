//! What is told once the threads of a server have started.

use crate::fault::ServingFault;
use crate::reason::Reason;
use entrance::{Event, Registry};
use std::io::{Eprint, Print};
use std::net::TcpListener;
use std::time::Clock;

/// Tells whoever waits that a server has opened.
pub(crate) trait Opening {
    /// Tells it once all threads have started, before the first connection is taken.
    fn tell<R: Eprint + Clock>(&self, registry: &Registry<'_, R>) -> Result<(), ServingFault>;
}

/// Tells nothing.
#[derive(Drop)]
pub(crate) struct Silent;

impl Opening for Silent {
    fn tell<R: Eprint + Clock>(&self, _registry: &Registry<'_, R>) -> Result<(), ServingFault> {
        Ok(())
    }
}

/// Tells where the server listens, and then prints `ready`. Before that it tells where the limit of open files is too low, and
/// where there is no door for tunnels.
#[derive(Drop)]
pub(crate) struct Aloud<'a, P> {
    pub(crate) rt: &'a P,
    pub(crate) listeners: &'a [TcpListener],
    pub(crate) too_few_files: Option<Event>,
    pub(crate) has_tunnel: bool,
}

impl<'a, P: Eprint> Aloud<'a, P> {
    /// Tells where the server listens.
    fn tell_addresses(&self) {
        for listener in self.listeners {
            if let Ok(address) = listener.local_addr() {
                // what standard error does not take is lost
                let _ = eprint!(self.rt; "svnserved: listens at {address}\n");
            }
        }
    }
}

impl<'a, P: Print + Eprint> Opening for Aloud<'a, P> {
    fn tell<R: Eprint + Clock>(&self, registry: &Registry<'_, R>) -> Result<(), ServingFault> {
        if let Some(event) = self.too_few_files {
            registry.tell_first(event);
        }
        if !self.has_tunnel {
            registry.tell_first(Event::NoTunnel);
        }
        if !registry.is_quiet() {
            self.tell_addresses();
        }
        match println!(self.rt; "ready") {
            Ok(()) => Ok(()),
            Err(error) => Err(ServingFault::Output(Reason::of(&error))),
        }
    }
}
