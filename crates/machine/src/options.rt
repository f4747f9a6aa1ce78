//! What a server is started with.
ghost use Rattle.std.specs.{Prelude.{◌≡◌, IsTrue, IfOk, Some, None, true, false, option_copied, string_bytes}, List.list_all};
ghost use Rattle.machine.specs.Settings.{is_repository_name, has_name_length, is_dots, is_name_byte};

use byte_string::ByteString;
use cram::Users;
use std::alloc::{AllocError, Global};
use std::marker::Model;
use std::mem::drop;

/// The most bytes of a repository's name.
pub const NAME_LIMIT: usize = 64;

/// What a session goes by: the repository's name, the account that its client came as, if that is known, the users that
/// may log in, if there is a file of them, and whether clients may change the properties of revisions.
/// There is no `Debug`, so that nothing of a password is printed.
pub struct Options {
    name: String,
    account: Option<ByteString>,
    users: Option<Users>,
    revprops: bool,
}

impl Drop for Options {
    fn drop(self) {
        let Options {
            name: _,
            account: _,
            users: _,
            revprops: _,
        } = self;
    }
}

impl Model for Options {
    ghost use Rattle.std.specs.Prelude.{string_bytes};
    ghost use Rattle.machine.specs.Settings.{Settings};

    ghost Value = { Settings };

    ghost view = { λ o. record {
      name = string_bytes o.name;
      account = o.account;
      users = o.users;
      revprops = o.revprops;
    } };
}

impl Options {
    /// Makes the options of a repository of this name, which `is_repository_name` accepts.
    pub fn new(alloc: Global, name: &str) -> Result<Options, AllocError>
        requires { IsTrue (is_repository_name name.now) }
        ensures { IfOk result (λ o. o
            ≡ record { name = name.now; account = None; users = None; revprops = false }) }
    {
        Ok(Options {
            name: String::from_str(alloc, name)?,
            account: None,
            users: None,
            revprops: false,
        })
    }

    /// Gives the same, with these users in the place of those before. Then a client may log in as one of them, and one
    /// that writes must.
    pub fn with_users(self, users: Users) -> Options
        ensures { result ≡ record self { users = Some users } }
    {
        let Options {
            name,
            account,
            users: before,
            revprops,
        } = self;
        drop(before);
        Options {
            name,
            account,
            users: Some(users),
            revprops,
        }
    }

    /// Gives the same, of a client that came as the account of this name. Then it logs in by that name, and by no other.
    pub fn with_account(self, name: ByteString) -> Options
        ensures { result ≡ record self { account = Some name } }
    {
        let Options {
            name: repository,
            account: before,
            users,
            revprops,
        } = self;
        drop(before);
        Options {
            name: repository,
            account: Some(name),
            users,
            revprops,
        }
    }

    /// Gives the same, where clients may change the properties of revisions.
    pub fn with_revprops(self) -> Options
        ensures { result ≡ record self { revprops = true } }
    {
        let Options {
            name,
            account,
            users,
            revprops: _,
        } = self;
        Options {
            name,
            account,
            users,
            revprops: true,
        }
    }

    /// Says whether clients may change the properties of revisions.
    pub fn has_revprops(&self) -> bool
        ensures { result ≡ self.now.revprops }
    {
        self.revprops
    }

    /// Gives the account that the client came as, if that is known.
    pub fn account(&self) -> Option<&ByteString>
        ensures { option_copied result ≡ self.now.account }
    {
        self.account.as_ref()
    }

    /// Gives the users that may log in, if there is a file of them.
    pub fn users(&self) -> Option<&Users>
        ensures { option_copied result ≡ self.now.users }
    {
        self.users.as_ref()
    }

    /// Gives the repository's name.
    pub fn name(&self) -> &str
        ensures { result.now ≡ self.now.name }
    {
        self.name.as_str()
    }
}

/// Says whether a repository may have this name: 1 to 64 of ASCII letters, digits, `-`, `_` and `.`, and not `.` or
/// `..`.
pub fn is_repository_name(name: &str) -> bool
    ensures { result ≡ is_repository_name name.now }
{
    let bytes = name.as_bytes();
    has_name_length(bytes) && are_name_bytes(bytes) && !is_dots(bytes)
}

/// Says whether the name has 1 to 64 bytes.
fn has_name_length(name: &[u8]) -> bool
    ensures { result ≡ has_name_length name.now }
{
    0 < name.len() && name.len() <= NAME_LIMIT
}

/// Says whether a repository's name may have each of these bytes.
fn are_name_bytes(name: &[u8]) -> bool
    ensures { result ≡ list_all is_name_byte name.now }
{
    name.iter().all(|b| is_name_byte(*b))
}

/// Says whether the name is `.` or `..`.
fn is_dots(name: &[u8]) -> bool
    ensures { result ≡ is_dots name.now }
{
    name == b".".as_slice() || name == b"..".as_slice()
}

/// Says whether the byte is an ASCII letter or digit, `-`, `_` or `.`.
fn is_name_byte(b: u8) -> bool
    ensures { result ≡ is_name_byte b }
{
    b.is_ascii_alphanumeric() || b == b'-' || b == b'_' || b == b'.'
}
