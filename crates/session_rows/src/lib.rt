//! Tests of sessions: at a hub, over streams, and on threads, over connections in memory and over TCP.
#![tactic(auto)]

#[cfg(test)]
mod calls;
#[cfg(test)]
mod clients;
#[cfg(test)]
mod connections;
#[cfg(test)]
mod failing;
#[cfg(test)]
mod gate;
#[cfg(test)]
mod handed_in;
#[cfg(test)]
mod hubs;
#[cfg(test)]
mod lines;
#[cfg(test)]
mod locks;
#[cfg(test)]
mod logging_in;
#[cfg(test)]
mod repositories;
#[cfg(test)]
mod settings;
#[cfg(test)]
mod stdio;
#[cfg(test)]
mod watching;
