//! What is asked of a property of a revision.
ghost use Rattle.std.specs.Prelude.{◌≡◌};

use byte_string::ByteString;
use std::alloc::AllocError;

/// What the value of a property has to be before it is changed.
#[derive(Drop)]
pub enum PreviousValue {
    /// Whatever it is.
    Any,
    /// This value; where there is none, the property has to be absent.
    Exactly(Option<ByteString>),
}

/// What is asked of a property of a revision: the revision, the property's name, the value that it is to
/// have, or `None` where it is taken out, and the value that it has to have before.
#[derive(Drop)]
pub struct PropertyAsk {
    pub revision: u64,
    pub name: ByteString,
    pub value: Option<ByteString>,
    pub previous: PreviousValue,
}

impl Clone for PreviousValue {
    ghost is_clone = { λ previous copy. copy ≡ previous };

    fn clone(&self) -> Result<Self, AllocError> {
        match self {
            PreviousValue::Any => Ok(PreviousValue::Any),
            PreviousValue::Exactly(value) => Ok(PreviousValue::Exactly(value.clone()?)),
        }
    }
}

impl Clone for PropertyAsk {
    ghost is_clone = { λ ask copy. copy ≡ ask };

    fn clone(&self) -> Result<Self, AllocError> {
        Ok(PropertyAsk {
            revision: self.revision,
            name: self.name.clone()?,
            value: self.value.clone()?,
            previous: self.previous.clone()?,
        })
    }
}
