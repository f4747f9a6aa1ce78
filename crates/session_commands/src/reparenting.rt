//! A client goes on at another URL.
ghost use Rattle.std.specs.Prelude.{◌≡◌};
ghost use Rattle.svnpath.specs.Urls.{path_of_text};
ghost use Rattle.machine.specs.{Answers.behind, Commands.{at_path, reparented}, Steps.Answered};
ghost use Rattle.session_replies.specs.Telling.{told_before};

use byte_string::ByteString;
use machine::{Client, Options, Turn};
use refusals::path_refusal;
use repo_api::Repository;
use session_replies::{Preface, SessionPhase, refuse, tell};
use std::alloc::AllocError;
use std::mem::drop;
use svnpath::{Path, PathFault};
use wire_replies::{Reply, ReplySink};

/// Moves the client to another path; its root stays as it was told.
fn at_path(client: Client, path: Path) -> Client
    ensures { result ≡ at_path client path }
{
    let (before, root, user, is_of_today) = client.into_parts();
    drop(before);
    Client {
        path,
        root,
        user,
        is_of_today,
    }
}

/// Lets a client go on at another URL; one that is refused leaves it where it is.
pub(crate) fn reparent<R: Repository, S: ReplySink>(
    options: &Options,
    client: Client,
    url: &ByteString,
    preface: Preface,
    turn: &mut Turn<S>,
) -> Result<SessionPhase<R>, AllocError>
    ensures { Answered result S.writes turn.old turn.new (behind (told_before preface)
        (reparented turn.old.env client (path_of_text url.now options.now.name))) }
{
    match Path::from_url(turn.alloc, url.as_slice(), options.name()) {
        Ok(path) => {
            let client = at_path(client, path);
            tell(client, preface, Ok(Reply::Success), turn)
        }
        Err(PathFault::NoMemory) => {
            drop(client);
            Err(AllocError)
        }
        Err(fault) => refuse(client, preface, path_refusal(fault), turn),
    }
}
