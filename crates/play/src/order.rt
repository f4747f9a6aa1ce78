//! The command line.

use crate::fault::ScriptFault;
use std::env;

/// What the command line asks for.
#[derive(Clone, Copy)]
pub enum Order {
    /// A script is played over the server's repository.
    Shared,
    /// A script is played over the plain program of the definitions.
    Flat,
    /// A script is played over both, which have to give the same answers.
    Both,
    /// How the program is called.
    Help,
}

impl Order {
    /// Reads what the words of the command line ask for.
    pub fn read(rt: &HostRuntime) -> Result<Order, ScriptFault> {
        let mut order = Order::Shared;
        for word in env::args(rt)?.skip(1) {
            order = match word.as_str() {
                "--flat" => Order::Flat,
                "--both" => Order::Both,
                "--help" => Order::Help,
                _ => return Err(ScriptFault::Words),
            };
        }
        Ok(order)
    }
}
