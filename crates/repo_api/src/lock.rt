//! Locks of paths.
ghost use Rattle.std.specs.Prelude.{◌≡◌, ◌++◌, ◌∷◌, [], OnOk, OnErr};

use byte_string::ByteString;
use std::alloc::{AllocError, Global};
use std::marker::Model;
use svnpath::Path;

/// A lock: its token, its owner, the owner's comment if any, and the date at which it was made.
#[derive(Debug, Drop)]
pub struct Lock {
    pub token: ByteString,
    pub owner: ByteString,
    pub comment: Option<ByteString>,
    pub created: ByteString,
}

/// Paths with the tokens of the locks that stand there, as a commit hands them in.
#[derive(Debug)]
pub struct LockTokens {
    tokens: Vec<(Path, ByteString)>,
}

impl Drop for LockTokens {
    fn drop(self) {
        let LockTokens { tokens: _ } = self;
    }
}

impl Model for LockTokens {
    ghost use Rattle.std.specs.Prelude.{ℕ, List};
    ghost use Rattle.svnpath.specs.Paths.{PathValue};

    ghost Value = { List (PathValue × List ℕ) };

    ghost view = { λ t. t.tokens.items };
}

impl LockTokens {
    /// Makes a list of no tokens.
    pub fn new(alloc: Global) -> Self
        ensures { result ≡ [] }
    {
        LockTokens {
            tokens: Vec::new(alloc),
        }
    }

    /// Puts a token at the end.
    pub fn push(&mut self, path: Path, token: ByteString) -> Result<(), AllocError>
        ensures ok { OnOk result (self.new ≡ self.old ++ (path, token) ∷ []) }
        ensures err { OnErr result (self.new ≡ self.old) }
    {
        self.tokens.push((path, token)).map_err(AllocError::from)
    }

    /// Gives the paths with their tokens, in the order in which they were put.
    pub fn as_slice(&self) -> &[(Path, ByteString)]
        ensures { result.now ≡ self.now }
    {
        self.tokens.as_slice()
    }
}

impl Clone for LockTokens {
    ghost is_clone = { λ tokens copy. copy ≡ tokens };

    fn clone(&self) -> Result<Self, AllocError> {
        Ok(LockTokens {
            tokens: self.tokens.clone()?,
        })
    }
}

impl Clone for Lock {
    ghost is_clone = { λ lock copy. copy ≡ lock };

    fn clone(&self) -> Result<Self, AllocError> {
        Ok(Lock {
            token: self.token.clone()?,
            owner: self.owner.clone()?,
            comment: self.comment.clone()?,
            created: self.created.clone()?,
        })
    }
}
