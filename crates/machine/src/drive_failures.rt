//! The failure that a client is sent after it gave a drive up.
ghost use Rattle.std.specs.Prelude.{◌≡◌};
ghost use Rattle.machine.specs.Reports.{drive_failure};

use refusals::Refusal;
use std::mem::drop;
use wire_replies::{FailureLinks, Reply};

/// Makes the failure: its own links for a client of today, if there are any.
pub fn drive_failure(is_of_today: bool, links: FailureLinks) -> Reply
    ensures { result ≡ drive_failure is_of_today links }
{
    if is_of_today && !links.as_slice().is_empty() {
        Reply::Failures(links)
    } else {
        drop(links);
        Reply::Failure(Refusal::EditAborted, None)
    }
}
