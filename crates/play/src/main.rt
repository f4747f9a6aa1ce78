//! Plays a script of calls to a hub: reads its lines from standard input and prints what each call answers. The
//! hub's repository is the server's, over shared node revisions; with `--flat` it is the plain program of the
//! definitions, `flatrepo`, and each answer is the same. With `--both` the script is played over both, line by line, and
//! another answer of the plain program ends it with status 1; it may have no repository in a folder.
//!
//!     play [--flat | --both] < SCRIPT
//!
//! The lines of a script, and what each is answered, are those of `script_lines`. A line that is not played ends the
//! program with status 2, and so does a users file that is not read.
#![tactic(auto)]

mod fault;
mod hubs;
mod order;
mod plan;
mod player;
mod script;

use fault::ScriptFault;
use flatrepo::FlatRepo;
use order::Order;
use script::{play_over_both, play_script};
use std::process::ExitCode;
use world::World;

/// Does what the command line asks for.
fn run(rt: &HostRuntime) -> Result<(), ScriptFault> {
    match Order::read(rt)? {
        Order::Shared => play_script::<World>(rt),
        Order::Flat => play_script::<FlatRepo>(rt),
        Order::Both => play_over_both(rt),
        Order::Help => {
            println!(rt; "play [--flat | --both] < SCRIPT")?;
            Ok(())
        }
    }
}

fn main(rt: HostRuntime) -> ExitCode {
    match run(&rt) {
        Ok(()) => ExitCode::SUCCESS,
        Err(fault) => {
            let _ = eprintln!(rt; "play: {fault}");
            fault.exit_code()
        }
    }
}
