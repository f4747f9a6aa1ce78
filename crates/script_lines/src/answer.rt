//! What calls are answered, as lines.

use fsfs_text::FileFault;
use hub::{Call, HubFault, Outcome};
use std::alloc::{AllocError, Global};
use store_files::StoreFault;

/// Makes the line that says how a repository was opened again.
pub fn reopening_line(alloc: Global, fault: Option<StoreFault>) -> Result<String, AllocError> {
    match fault {
        None => String::from_str(alloc, "reopen"),
        Some(fault) => {
            let fault = store_fault_text(fault);
            format!(in alloc; "reopen {fault}")
        }
    }
}

/// Makes the line that says what a file has.
pub fn file_line(alloc: Global, name: &str, bytes: Option<&[u8]>) -> Result<String, AllocError> {
    match bytes {
        None => format!(in alloc; "file {name} none"),
        Some(bytes) => {
            let bytes = bytes_text(alloc, bytes)?;
            format!(in alloc; "file {name} {bytes}")
        }
    }
}

/// Gives the number of a fault of a store.
fn store_fault_text(fault: StoreFault) -> &'static str {
    match fault {
        StoreFault::Device => "O1",
        StoreFault::Halted => "O3",
        StoreFault::NoMemory => "O4",
        StoreFault::Exists => "O5",
        StoreFault::File(fault) => file_fault_text(fault),
    }
}

/// Gives the number of a fault of a file.
fn file_fault_text(fault: FileFault) -> &'static str {
    match fault {
        FileFault::Truncated => "X1",
        FileFault::BadLine => "X2",
        FileFault::Delta => "X3",
        FileFault::Digest => "X4",
        FileFault::Dangling => "X5",
        FileFault::WrongFormat => "X6",
        FileFault::NoMemory => "X7",
    }
}

/// Makes the line that a call is answered by.
pub fn answer_line(alloc: Global, call: &Call, outcome: &Outcome) -> Result<String, AllocError> {
    let call = call_text(alloc, call)?;
    let outcome = outcome_text(alloc, outcome)?;
    format!(in alloc; "{call}{outcome}")
}

/// Says how the answer to a call begins.
fn call_text(alloc: Global, call: &Call) -> Result<String, AllocError> {
    match call {
        Call::Connect => String::from_str(alloc, "connect"),
        Call::Feed(session, _, _) => format!(in alloc; "feed {session}"),
        Call::Disconnect(session) => format!(in alloc; "disconnect {session}"),
    }
}

/// Says how the answer goes on.
fn outcome_text(alloc: Global, outcome: &Outcome) -> Result<String, AllocError> {
    match outcome {
        Outcome::Connected(session, bytes) => {
            let bytes = bytes_text(alloc, bytes)?;
            format!(in alloc; " {session} {bytes}")
        }
        Outcome::Wrote(bytes) => {
            let bytes = bytes_text(alloc, bytes)?;
            format!(in alloc; " {bytes}")
        }
        Outcome::Dropped => Ok(String::new(alloc)),
        Outcome::Failed(fault) => {
            let fault = fault_text(*fault);
            format!(in alloc; " {fault}")
        }
    }
}

/// Writes bytes by their digits, or `-` for none.
fn bytes_text(alloc: Global, bytes: &[u8]) -> Result<String, AllocError> {
    if bytes.is_empty() {
        return String::from_str(alloc, "-");
    }
    hex::encode(alloc, bytes)
}

/// Gives the number of a fault.
fn fault_text(fault: HubFault) -> &'static str {
    match fault {
        HubFault::NoSession => "H1",
        HubFault::NoMemory => "H2",
        HubFault::Halted => "H3",
        HubFault::Full => "H4",
    }
}
