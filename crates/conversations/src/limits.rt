//! How much a session may hold of an item that is not whole yet.
ghost use Rattle.std.specs.Prelude.{◌≡◌, ℕ, option_copied};
ghost use Rattle.items.specs.Counting.{CountsItems};
ghost use Rattle.conversations.specs.Limits.{most_bytes, most_items, passes_limits};

use byte_string::ByteString;
use guests::Awaited;
use repo_api::Repository;
use session::Session;

/// How many bytes an item may have in addition to its long strings: 128 KiB. Two URLs of 64 components fit.
pub const FRAME: usize = 131_072;

/// How many bytes a string has at most: 16 MiB.
pub const STRING: usize = 16_777_216;

/// How many items there may be in one without a long list.
pub const FEW: usize = 1_024;

/// How many items there may be in a command of a client without a user. 65,536 paths with a token or a revision each
/// fit: three items for each.
pub const MANY: usize = 200_000;

/// How many items there may be in a command of a client that has logged in as a user.
pub const MOST: usize = 650_000;

/// Gives how many bytes an item may have that is not whole yet. A command may have two long strings, since clients
/// send the message of a commit twice, before they are asked to log in.
fn most_bytes(awaited: Awaited) -> usize
    ensures { result ≡ most_bytes awaited }
{
    match awaited {
        Awaited::Login => FRAME,
        Awaited::Command => 2 * STRING + FRAME,
        Awaited::Report => FRAME,
        Awaited::Edit => STRING + FRAME,
        Awaited::Nothing => 0,
    }
}

/// Gives how many items there may be in a command.
fn most_items_of_command(user: Option<&ByteString>) -> usize
    ensures { result ≡ most_items Awaited.Command (option_copied user.entry) }
{
    match user {
        None => MANY,
        Some(_) => MOST,
    }
}

/// Gives how many items there may be in one that is not whole yet.
fn most_items(awaited: Awaited, user: Option<&ByteString>) -> usize
    ensures { result ≡ most_items awaited (option_copied user.entry) }
{
    match awaited {
        Awaited::Login => FEW,
        Awaited::Command => most_items_of_command(user),
        Awaited::Report => FEW,
        Awaited::Edit => FEW,
        Awaited::Nothing => 0,
    }
}

/// Says whether a session holds more of an item that is not whole yet than it may.
pub fn is_past_limits<R: Repository>(session: &Session<R>) -> bool
    ensures { (items : ℕ) × CountsItems items session.now.rest
        × (result ≡ passes_limits session.now items) }
{
    let awaited = session.awaited();
    let items = session.unread_items();
    if session.unread_len() > most_bytes(awaited) {
        return true;
    }
    items > most_items(awaited, session.user())
}
