//! The text that a document makes.

ghost use Rattle.std.specs.{Prelude.{◌≡◌, IfOk, OnErr}, Arc.arc_value};
ghost use Rattle.svndiff0.specs.{Stages.{HasTextOf, ReadsOn, reading_of}, Targets.target_bytes};

use crate::fault::DiffFault;
use crate::reading::read_on;
use crate::stage::Stage;
use std::alloc::{AllocError, AllocFailed, Global};
use std::mem;
use std::sync::Arc;

/// The text that a document makes: a list of bytes, whoever holds it.
#[derive(Drop)]
pub enum Target {
    /// No one else holds it, and more may come behind it.
    Growing(Vec<u8>),
    /// Others may hold it too.
    Shared(Arc<Vec<u8>>),
}

impl Target {
    /// Gives the bytes of the text so far, lent out, whoever holds it.
    pub fn as_slice(&self) -> &[u8]
        ensures { result.now ≡ target_bytes self.now }
    {
        match self {
            Target::Growing(text) => text.as_slice(),
            Target::Shared(text) => text.as_slice(),
        }
    }

    /// Reads on from the bytes, over the base, and gives how far that came, and the bytes that are left. An `Err` leaves
    /// the text as it was. A text that others may hold is copied first.
    pub fn read_on<'a>(
        &mut self,
        alloc: Global,
        stage: Stage,
        base: &[u8],
        bytes: &'a [u8],
    ) -> Result<(Stage, &'a [u8]), DiffFault>
        requires { HasTextOf stage (target_bytes self.old) }
        ensures reads { ReadsOn (λ x. x.now) base.now
            (reading_of stage (target_bytes self.old) bytes.now) result bytes.now
            (target_bytes self.new) }
        ensures err { OnErr result (target_bytes self.new ≡ target_bytes self.old) }
    {
        match self {
            Target::Growing(text) => grow(stage, base, text, bytes),
            Target::Shared(text) => {
                let mut copy = Vec::from_slice(alloc, text.as_slice())?;
                let read = read_on(stage, base, &mut copy, bytes)?;
                *self = Target::Growing(copy);
                Ok(read)
            }
        }
    }

    /// Gives another hold of the text, of which no byte is copied. The text stays as it is, also where memory runs out.
    pub fn share(&mut self, alloc: Global) -> Result<Arc<Vec<u8>>, AllocError>
        ensures shared { IfOk result (λ shared. (arc_value shared).items ≡ target_bytes self.old) }
        ensures same { target_bytes self.new ≡ target_bytes self.old }
    {
        let target = mem::replace(self, Target::Growing(Vec::new(alloc)));
        let (target, shared) = target.shared(alloc);
        *self = target;
        shared
    }

    /// Makes the text one that others may hold, and gives another hold of it.
    fn shared(self, alloc: Global) -> (Self, Result<Arc<Vec<u8>>, AllocError>)
        ensures same { target_bytes result.0 ≡ target_bytes self }
        ensures shared { IfOk result.1 (λ shared. (arc_value shared).items ≡ target_bytes self) }
    {
        match self {
            Target::Growing(text) => match Arc::new(alloc, text) {
                Ok(text) => held_twice(text),
                Err(AllocFailed { value }) => (Target::Growing(value), Err(AllocError)),
            },
            Target::Shared(text) => held_twice(text),
        }
    }
}

/// Gives a text that others may hold, and another hold of it.
fn held_twice(text: Arc<Vec<u8>>) -> (Target, Result<Arc<Vec<u8>>, AllocError>)
    ensures same { target_bytes result.0 ≡ (arc_value text).items }
    ensures shared { IfOk result.1 (λ shared. (arc_value shared).items ≡ (arc_value text).items) }
{
    let another = Arc::try_clone(&text);
    (Target::Shared(text), another)
}

/// Reads on from the bytes, over the base. An `Err` leaves the text as it was.
fn grow<'a>(
    stage: Stage,
    base: &[u8],
    text: &mut Vec<u8>,
    bytes: &'a [u8],
) -> Result<(Stage, &'a [u8]), DiffFault>
    requires { HasTextOf stage text.old.items }
    ensures reads { ReadsOn (λ x. x.now) base.now
        (reading_of stage text.old.items bytes.now) result bytes.now text.new.items }
    ensures err { OnErr result (text.new.items ≡ text.old.items) }
{
    let written = text.len();
    match read_on(stage, base, text, bytes) {
        Ok(read) => Ok(read),
        Err(fault) => {
            text.truncate(written);
            Err(fault)
        }
    }
}
