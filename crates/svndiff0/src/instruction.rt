//! The instructions of a window.

ghost use Rattle.std.specs.Prelude.{◌≡◌, ◌<◌, ◌^◌, ℕ, IfOk, IfSome};
ghost use Rattle.svndiff0.specs.{Read.Gives, Instruction.{length_at, copy_at, new_data_at, instruction_at, size, new_size}, Sums.IsWithin};

use crate::fault::DiffFault;
use crate::integer::read_integer;

/// One instruction. Lengths and offsets count bytes.
#[derive(Clone, Copy, Debug, PartialEq, Eq)]
pub enum Instruction {
    /// An offset in the source view, and how many bytes to copy from there.
    SourceCopy(usize, usize),
    /// How many of the bytes of new data to take.
    NewData(usize),
}

impl Instruction {
    /// Says how many bytes it gives.
    pub fn size(self) -> usize
        ensures { result ≡ size self }
    {
        match self {
            Instruction::SourceCopy(_, length) | Instruction::NewData(length) => length,
        }
    }

    /// Says how many bytes of new data it takes.
    pub fn new_size(self) -> usize
        ensures { result ≡ new_size self }
    {
        match self {
            Instruction::SourceCopy(..) => 0,
            Instruction::NewData(length) => length,
        }
    }
}

/// Reads the length that an instruction's low six bits give, or the integer after them.
#[tactic(auto, unfolding(crate::specs::Instruction::length_at))]
fn read_length(low: u8, bytes: &[u8]) -> Result<Option<(usize, &[u8])>, DiffFault>
    ensures value { Gives (λ x. (x.0, x.1.now)) result (length_at low bytes.now) }
    ensures small { IfOk result (λ found. IfSome found (λ x. x.0 < 2 ^ 63)) }
{
    if low > 0 {
        return Ok(Some((low as usize, bytes)));
    }
    match read_integer(bytes)? {
        Some((0, _)) => Err(DiffFault::BadInstruction),
        found => Ok(found),
    }
}

/// Reads the rest of a source copy, whose length and offset must lie in a view of this length.
#[tactic(auto, unfolding(crate::specs::Instruction::copy_at))]
fn read_copy(view: usize, low: u8, bytes: &[u8]) -> Result<Option<(Instruction, &[u8])>, DiffFault>
    ensures value { Gives (λ x. (x.0, x.1.now)) result (copy_at view low bytes.now) }
    ensures within { IfOk result (λ found. IfSome found (λ x. IsWithin view x.0)) }
{
    let Some((length, rest)) = read_length(low, bytes)? else {
        return Ok(None);
    };
    let Some((offset, rest)) = read_integer(rest)? else {
        return Ok(None);
    };
    if view < offset + length {
        return Err(DiffFault::CopyBeyondView);
    }
    Ok(Some((Instruction::SourceCopy(offset, length), rest)))
}

/// Reads the rest of an instruction that takes new data.
#[tactic(auto, unfolding(crate::specs::Instruction::new_data_at))]
fn read_new_data(low: u8, bytes: &[u8]) -> Result<Option<(Instruction, &[u8])>, DiffFault>
    ensures value { Gives (λ x. (x.0, x.1.now)) result (new_data_at low bytes.now) }
    ensures within { (view : ℕ) → IfOk result (λ found. IfSome found (λ x. IsWithin view x.0)) }
{
    let Some((length, rest)) = read_length(low, bytes)? else {
        return Ok(None);
    };
    Ok(Some((Instruction::NewData(length), rest)))
}

/// Reads the instruction at the front, over a view of this length, and gives the bytes after it too; `None` where it
/// isn't whole.
#[tactic(auto, unfolding(crate::specs::Instruction::instruction_at))]
pub fn read_instruction(
    view: usize,
    bytes: &[u8],
) -> Result<Option<(Instruction, &[u8])>, DiffFault>
    ensures value { Gives (λ x. (x.0, x.1.now)) result (instruction_at view bytes.now) }
    ensures within { IfOk result (λ found. IfSome found (λ x. IsWithin view x.0)) }
{
    let Some((first, rest)) = bytes.split_first() else {
        return Ok(None);
    };
    match *first {
        0..=63 => read_copy(view, *first, rest),
        64..=127 => Err(DiffFault::TargetCopy),
        128..=191 => read_new_data(*first - 128, rest),
        _ => Err(DiffFault::BadInstruction),
    }
}
