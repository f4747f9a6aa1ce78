// The users that may log in.
use crate::fault::CramFault;
use crate::line::{ParsedLine, parse_line, split_line};
use byte_string::ByteString;
use std::alloc::{AllocError, Global};
use std::marker::Model;

// A user's name and password. There is no `Debug`: nothing of a password is to be printed.
#[derive(Drop)]
struct Account {
    name: ByteString,
    password: ByteString,
}

impl Model for Account {
    ghost use Rattle.cram.specs.Login.{Login};

    ghost Value = { Login };

    ghost view = { λ a. record { name = a.name; password = a.password } };
}

/// A user who has logged in, by name.
#[derive(Debug)]
pub struct User {
    name: ByteString,
}

impl Drop for User {
    fn drop(self) {
        let User { name: _ } = self;
    }
}

impl Model for User {
    ghost use Rattle.std.specs.Prelude.{List, ℕ};

    ghost Value = { List ℕ };

    ghost view = { λ u. u.name };
}

impl User {
    ghost use Rattle.std.specs.Prelude.{◌≡◌, IfOk};

    /// Makes the user of this name, with a copy of it. The name is not checked.
    pub(crate) fn new(alloc: Global, name: &[u8]) -> Result<User, AllocError>
        ensures { IfOk result (λ user. user ≡ name.now) }
    {
        Ok(User {
            name: ByteString::from_slice(alloc, name)?,
        })
    }

    /// Gives the bytes of the name.
    pub fn name(&self) -> &[u8]
        ensures { result.now ≡ self.now }
    {
        self.name.as_slice()
    }

    /// Gives the bytes of the name, to keep.
    pub fn into_name(self) -> ByteString
        ensures { result ≡ self }
    {
        let User { name } = self;
        name
    }
}

/// The users that may log in, each with its password. There is no `Debug`, so that nothing of a password
/// is printed.
pub struct Users {
    accounts: Vec<Account>,
}

impl Drop for Users {
    fn drop(self) {
        let Users { accounts: _ } = self;
    }
}

impl Model for Users {
    ghost use Rattle.std.specs.Prelude.{List};
    ghost use Rattle.cram.specs.Login.{Login};

    ghost Value = { List Login };

    ghost view = { λ u. u.accounts.items };
}

impl Users {
    ghost use Rattle.std.specs.Prelude.{◌≡◌, ◌++◌, ◌∷◌, [], IfOk, IfErr, OnOk, option_copied};
    ghost use Rattle.cram.specs.{Login.password_of, UsersFile.{AreRight, IsFileFault, file_lines, logins_of}};

    /// Reads a file of users: a line `[users]`, and behind it lines `name = password`. The blanks (spaces
    /// and tabs) round the first `=` are dropped. A name and a password have 1 to 255 bytes, and a name
    /// has no space and no NUL, and stands once. Blank lines and lines that begin with `#` are skipped. A line
    /// ends with LF or CRLF, the last one also with the file. A file without users is accepted. The faults are
    /// `BadUsers` and `NoMemory`. The time grows with the square of the number of users.
    pub fn read(alloc: Global, bytes: &[u8]) -> Result<Users, CramFault>
        ensures users { IfOk result (λ users.
            AreRight (file_lines bytes.now) × (users ≡ logins_of (file_lines bytes.now))) }
        ensures fault { IfErr result (λ fault. IsFileFault (file_lines bytes.now) fault) }
    {
        let mut draft = Draft::new(alloc);
        let mut rest = bytes;
        let mut number = 0;
        while !rest.is_empty() {
            let (line, behind) = split_line(rest);
            number += 1;
            if !draft.take_line(alloc, parse_line(line))? {
                return Err(CramFault::BadUsers(number));
            }
            rest = behind;
        }
        Ok(draft.users)
    }

    /// Finds the password of the user of that name.
    pub(crate) fn password_of(&self, name: &[u8]) -> Option<&[u8]>
        ensures { option_copied result ≡ password_of name.now self.now }
    {
        for account in &self.accounts {
            if account.name.as_slice() == name {
                return Some(account.password.as_slice());
            }
        }
        None
    }

    /// Adds a user at the end, with copies of its name and its password. Whether the name is there already is not
    /// checked.
    fn add(&mut self, alloc: Global, name: &[u8], password: &[u8]) -> Result<(), AllocError>
        ensures { OnOk result (self.new ≡ self.old
            ++ record { name = name.now; password = password.now } ∷ []) }
    {
        let account = Account {
            name: ByteString::from_slice(alloc, name)?,
            password: ByteString::from_slice(alloc, password)?,
        };
        self.accounts.push(account)?;
        Ok(())
    }
}

// What the lines of a file say so far.
#[derive(Drop)]
struct Draft {
    users: Users,
    has_header: bool,
}

impl Draft {
    ghost use Rattle.std.specs.Prelude.{[], List, IfOk};
    ghost use Rattle.cram.specs.{Line.{Line, pair}, ParsedLine.said_by, UsersFile.{IsSaidBy, TakesLine}};

    /// Makes what a file says before its first line: no users, and no header.
    fn new(alloc: Global) -> Draft
        ensures { IsSaidBy [] result.has_header result.users }
    {
        Draft {
            users: Users {
                accounts: Vec::new(alloc),
            },
            has_header: false,
        }
    }

    // Takes the next line in, or answers `false` where it breaks a rule.
    fn take_line(&mut self, alloc: Global, line: ParsedLine<'_>) -> Result<bool, AllocError>
        ensures { (before : List Line) → IsSaidBy before self.old.has_header self.old.users →
            IfOk result (λ kept. TakesLine before (said_by line.entry) kept self.new.has_header self.new.users) }
    {
        match line {
            ParsedLine::Blank | ParsedLine::Comment => Ok(true),
            ParsedLine::Header => {
                let is_first = !self.has_header;
                self.has_header = true;
                Ok(is_first)
            }
            ParsedLine::Pair { name, password } => self.take_pair(alloc, name, password),
            ParsedLine::Wrong => Ok(false),
        }
    }

    /// Adds a user with its password. Before the header, or where a user of that name is there already, the answer is
    /// `false`, and nothing is added.
    fn take_pair(&mut self, alloc: Global, name: &[u8], password: &[u8]) -> Result<bool, AllocError>
        ensures { (before : List Line) → IsSaidBy before self.old.has_header self.old.users →
            let line = pair (record { name = name.now; password = password.now }) in
            IfOk result (λ kept. TakesLine before line kept self.new.has_header self.new.users) }
    {
        if !self.has_header || self.users.password_of(name).is_some() {
            return Ok(false);
        }
        self.users.add(alloc, name, password)?;
        Ok(true)
    }
}
