//! Texts of files.
ghost use Rattle.std.specs.{Prelude.{◌≡◌, [], IfOk}, Arc.arc_value};
ghost use Rattle.hex.specs.Hex.{encode_lower};
ghost use Rattle.md5.specs.Md5.{md5};

use byte_string::ByteString;
use md5::{Digest, Md5};
use std::alloc::{AllocError, Global};
use std::marker::Model;
use std::sync::Arc;

/// The MD5 of no bytes.
const EMPTY_DIGEST: [u8; 16] = [
    0xd4, 0x1d, 0x8c, 0xd9, 0x8f, 0x00, 0xb2, 0x04, 0xe9, 0x80, 0x09, 0x98, 0xec, 0xf8, 0x42, 0x7e,
];

/// The text of a file, and the MD5 of its bytes. A clone shares its bytes, so that the trees of many
/// revisions hold a text once.
#[derive(Debug)]
pub struct FileText {
    bytes: Option<Arc<Vec<u8>>>,
    digest: [u8; 16],
}

impl Drop for FileText {
    fn drop(self) {
        let FileText {
            bytes: _,
            digest: _,
        } = self;
    }
}

impl Model for FileText {
    ghost use Rattle.std.specs.Prelude.{◌≡◌, ℕ, List};
    ghost use Rattle.md5.specs.Md5.{md5};
    ghost use Rattle.repo_api.specs.Texts.{shared_text};

    ghost Value = { List ℕ };

    ghost view = { λ t. shared_text t.bytes };

    ghost invariant = { λ t. t.digest ≡ md5 (shared_text t.bytes) };
}

impl FileText {
    /// Makes the text of no bytes. It takes no memory, and no digest is computed.
    pub fn empty() -> Self
        ensures { result ≡ [] }
    {
        FileText {
            bytes: None,
            digest: EMPTY_DIGEST,
        }
    }

    /// Makes the text that these bytes are. None is copied, and it takes no memory. Their MD5 is computed here.
    pub fn from_shared(bytes: Arc<Vec<u8>>) -> Self
        ensures { result ≡ (arc_value bytes).items }
    {
        let digest = Md5::digest(bytes.as_slice());
        FileText {
            bytes: Some(bytes),
            digest,
        }
    }

    /// Gives the MD5 of the bytes, which is kept and not computed.
    pub fn digest(&self) -> [u8; 16]
        ensures { result ≡ md5 self.now }
    {
        self.digest
    }

    /// Writes the MD5 of the bytes as 32 lowercase hexadecimal digits.
    pub fn digest_text(&self, alloc: Global) -> Result<ByteString, AllocError>
        ensures { IfOk result (λ digits. digits ≡ encode_lower (md5 self.now)) }
    {
        let digits = hex::encode(alloc, &self.digest)?;
        Ok(ByteString::new(digits.into_bytes()))
    }

    /// Gives the bytes of the text, which are shared and not copied.
    pub fn share(&self, alloc: Global) -> Result<Arc<Vec<u8>>, AllocError>
        ensures { IfOk result (λ bytes. (arc_value bytes).items ≡ self.now) }
    {
        match &self.bytes {
            None => Ok(Arc::new(alloc, Vec::new(alloc))?),
            Some(bytes) => Arc::try_clone(bytes),
        }
    }

    /// Gives the bytes of the text, lent out.
    pub fn as_slice(&self) -> &[u8]
        ensures { result.now ≡ self.now }
    {
        match &self.bytes {
            None => &[],
            Some(bytes) => bytes.as_slice(),
        }
    }
}

impl Clone for FileText {
    ghost is_clone = { λ text copy. copy ≡ text };

    fn clone(&self) -> Result<Self, AllocError> {
        match &self.bytes {
            None => Ok(FileText::empty()),
            Some(bytes) => Ok(FileText {
                bytes: Some(Arc::try_clone(bytes)?),
                digest: self.digest,
            }),
        }
    }
}
