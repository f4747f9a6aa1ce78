//! The names of the files of a repository.
ghost use Rattle.std.specs.Prelude.{◌≡◌};
ghost use Rattle.store_files.specs.Names.{kind_of, number_of, numbers_of, shard_of};

use std::fmt;

/// A file of a repository.
#[derive(Clone, Copy, Debug)]
pub enum FileName {
    /// Which format the files are of.
    Format,
    /// Which kind of repository it is; it is not read.
    Kind,
    Uuid,
    /// The youngest revision, and the ids that are next.
    Current,
    Locks,
    /// What a revision is, in this shard, if there are shards.
    Revision(Option<u32>, u32),
    /// The properties of a revision.
    Properties(Option<u32>, u32),
    /// Which format the folder around the files is of, for other programs; it is not read.
    RepositoryFormat,
}

impl FileName {
    /// Says which kind of file it is, as a number.
    pub fn kind(self) -> u8
        ensures { result ≡ kind_of self }
    {
        match self {
            FileName::Format => 0,
            FileName::Kind => 1,
            FileName::Uuid => 2,
            FileName::Current => 3,
            FileName::Locks => 4,
            FileName::Revision(None, _) => 5,
            FileName::Properties(None, _) => 6,
            FileName::RepositoryFormat => 7,
            FileName::Revision(Some(_), _) => 8,
            FileName::Properties(Some(_), _) => 9,
        }
    }

    /// Says in which shard it is, 0 where it is in none.
    pub fn shard(self) -> u32
        ensures { result ≡ shard_of self }
    {
        match self {
            FileName::Revision(Some(shard), _) => shard,
            FileName::Properties(Some(shard), _) => shard,
            _ => 0,
        }
    }

    /// Gives its name in numbers: its kind, its shard, and of which revision it is.
    pub fn numbers(self) -> (u8, u32, u32)
        ensures { result ≡ numbers_of self }
    {
        (self.kind(), self.shard(), self.number())
    }

    /// Says of which revision it is, 0 where it is of none.
    pub fn number(self) -> u32
        ensures { result ≡ number_of self }
    {
        match self {
            FileName::Revision(_, number) => number,
            FileName::Properties(_, number) => number,
            _ => 0,
        }
    }
}

impl fmt::Display for FileName {
    ghost use Rattle.std.specs.Prelude.{Some};
    ghost use Rattle.store_files.specs.Names.{name_text};

    ghost output = { λ name. Some (name_text name) };

    /// Writes its path in the folder of a repository's files.
    fn fmt<W: fmt::Write>(&self, f: &mut fmt::Formatter<W>) -> fmt::Result {
        match *self {
            FileName::Format => f.write_str("format"),
            FileName::Kind => f.write_str("fs-type"),
            FileName::Uuid => f.write_str("uuid"),
            FileName::Current => f.write_str("current"),
            FileName::Locks => f.write_str("locks.dump"),
            FileName::Revision(None, number) => write!(f, "revs/{number}"),
            FileName::Revision(Some(shard), number) => write!(f, "revs/{shard}/{number}"),
            FileName::Properties(None, number) => write!(f, "revprops/{number}"),
            FileName::Properties(Some(shard), number) => write!(f, "revprops/{shard}/{number}"),
            FileName::RepositoryFormat => f.write_str("../format"),
        }
    }
}
