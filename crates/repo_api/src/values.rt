//! Values of properties.
ghost use Rattle.std.specs.Prelude.{◌≡◌, IfOk};

use byte_string::ByteString;
use std::alloc::{AllocError, Global};
use std::marker::Model;
use std::sync::Arc;

/// The most bytes of a value that each copy has for itself.
const OWN: usize = 1_024;

/// A value as it is held.
#[derive(Debug, Drop)]
enum Held {
    Own(ByteString),
    Shared(Arc<ByteString>),
}

/// The value of a property. A clone of a long one shares its bytes.
#[derive(Debug)]
pub struct PropertyValue {
    held: Held,
}

impl Drop for PropertyValue {
    fn drop(self) {
        let PropertyValue { held: _ } = self;
    }
}

impl Model for PropertyValue {
    ghost use Rattle.std.specs.Prelude.{ℕ, List};
    ghost use Rattle.repo_api.specs.Values.{bytes_held};

    ghost Value = { List ℕ };

    ghost view = { λ v. bytes_held v.held };
}

impl PropertyValue {
    /// Makes the value that these bytes are. None is copied.
    pub fn new(alloc: Global, bytes: ByteString) -> Result<Self, AllocError>
        ensures { IfOk result (λ value. value ≡ bytes) }
    {
        let held = if bytes.as_slice().len() > OWN {
            Held::Shared(Arc::new(alloc, bytes)?)
        } else {
            Held::Own(bytes)
        };
        Ok(PropertyValue { held })
    }

    /// Gives the bytes, lent out.
    pub fn bytes(&self) -> &ByteString
        ensures { result.now ≡ self.now }
    {
        match &self.held {
            Held::Own(bytes) => bytes,
            Held::Shared(bytes) => bytes,
        }
    }
}

impl Clone for PropertyValue {
    ghost is_clone = { λ value copy. copy ≡ value };

    fn clone(&self) -> Result<Self, AllocError> {
        let held = match &self.held {
            Held::Own(bytes) => Held::Own(bytes.clone()?),
            Held::Shared(bytes) => Held::Shared(Arc::try_clone(bytes)?),
        };
        Ok(PropertyValue { held })
    }
}
