//! A reading of the file of users, after the first one.
ghost use Rattle.std.specs.Prelude.{◌≡◌, IsTrue, None, Some};
ghost use Rattle.cram.specs.UsersFile.{AreRight, file_lines, logins_of};
ghost use Rattle.session_pool.specs.Terms.{IsReadAgain};

use machine::Options;

/// What sessions are served by that begin after the file of users was read anew: its bytes, and the options with its users.
pub struct Reading {
    file: Vec<u8>,
    options: Options,
    ghost right: { AreRight (file_lines file.items) },
    ghost read: { options.users ≡ Some (logins_of (file_lines file.items)) },
}

impl Drop for Reading {
    fn drop(self) {
        let Reading {
            file: _,
            options: _,
        } = self;
    }
}

impl Reading {
    /// Makes the reading of a file whose lines are right, by the options that have its users.
    pub fn new(file: Vec<u8>, options: Options) -> Self
        requires right { AreRight (file_lines file.items) }
        requires read { options.users ≡ Some (logins_of (file_lines file.items)) }
        ensures { result.options ≡ options }
    {
        Reading { file, options }
    }

    /// Gives the options.
    pub(crate) fn options(&self) -> &Options
        ensures { result.now ≡ self.now.options }
    {
        &self.options
    }

    /// Says whether its options are those of the start but for the users.
    #[tactic(auto, using(crate::proofs::InTurn::is_read_again))]
    pub(crate) fn is_of(&self, start: &Options) -> bool
        ensures { IsTrue result → IsReadAgain start.now self.now.options }
    {
        self.options.name() == start.name()
            && has_no_account(&self.options)
            && has_no_account(start)
            && self.options.has_revprops() == start.has_revprops()
    }
}

/// Says whether no account is known that clients came as.
fn has_no_account(options: &Options) -> bool
    ensures { IsTrue result → options.now.account ≡ None }
{
    options.account().is_none()
}
