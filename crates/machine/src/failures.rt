//! How a client is told of a refusal.
ghost use Rattle.std.specs.Prelude.{◌≡◌};
ghost use Rattle.machine.specs.Answers.{failure_at, told_path};

use refusals::Refusal;
use std::mem::drop;
use svnpath::Path;
use wire_replies::Reply;

/// Gives the path that a client is told with a refusal: one of today alone, where the message says a path.
fn told_path(is_of_today: bool, refusal: Refusal, path: Option<Path>) -> Option<Path>
    ensures { result ≡ told_path is_of_today refusal path }
{
    match path {
        None => None,
        Some(path) => {
            if is_of_today && refusal.says_path() {
                Some(path)
            } else {
                drop(path);
                None
            }
        }
    }
}

/// Makes the failure of a command that is refused at this path, if it is one of a path.
pub fn failure_at(is_of_today: bool, refusal: Refusal, path: Option<Path>) -> Reply
    ensures { result ≡ failure_at is_of_today refusal path }
{
    Reply::Failure(refusal, told_path(is_of_today, refusal, path))
}
