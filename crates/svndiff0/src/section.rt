//! A window's section of instructions: judged as a whole, and then carried out.

ghost use Rattle.std.specs.Prelude.{◌≡◌, ◌<◌, ◌≤◌, ◌++◌, List, Ok, Err, length, drop, OnOk, MatchResult};
ghost use Rattle.svndiff0.specs.{Instruction.{instructions_of, new_size, given, target_of}, Sums.{SumsUp, Starts, SumsGrow, IsRunnable, IsWithin}};

use crate::fault::DiffFault;
use crate::instruction::{Instruction, read_instruction};
use std::alloc::AllocError;

/// The sums of the lengths of instructions, as far as a `usize` counts.
#[derive(Clone, Copy, Debug, PartialEq, Eq)]
pub struct Sums {
    /// Of all instructions.
    pub all: usize,
    /// Of those that take new data.
    pub new_data: usize,
}

/// Reads the first instruction of a section over a view of this length, and gives the bytes after it too.
fn first_instruction(view: usize, section: &[u8]) -> Result<(Instruction, &[u8]), DiffFault>
    requires { 0 < length section.now }
    ensures { MatchResult result (λ x. Starts view section.now x.0 x.1.now)
        (λ f. instructions_of view section.now ≡ Err f) }
{
    match read_instruction(view, section)? {
        Some(found) => Ok(found),
        None => Err(DiffFault::BadInstruction),
    }
}

/// Gives the sums of the section's lengths, over a view of this length, or the rule that an instruction breaks.
pub fn sum_lengths(view: usize, section: &[u8]) -> Result<Sums, DiffFault>
    ensures { SumsUp result (instructions_of view section.now) }
{
    let mut all = 0usize;
    let mut new_data = 0usize;
    let mut rest = section;
    while !rest.is_empty() {
        let (instruction, behind) = first_instruction(view, rest)?;
        all = all.saturating_add(instruction.size());
        new_data = new_data.saturating_add(instruction.new_size());
        rest = behind;
    }
    Ok(Sums { all, new_data })
}

/// Appends what one instruction gives, and gives the new data that is left.
fn carry_out_one<'a>(
    view: &[u8],
    instruction: Instruction,
    new_data: &'a [u8],
    text: &mut Vec<u8>,
) -> Result<&'a [u8], AllocError>
    requires within { IsWithin (length view.now) instruction }
    requires enough { new_size instruction ≤ length new_data.now }
    ensures left { MatchResult result (λ left. left.now ≡ drop (new_size instruction) new_data.now)
        (λ _. text.new.items ≡ text.old.items) }
    ensures given { OnOk result (text.new.items ≡ text.old.items
        ++ given view.now new_data.now instruction) }
{
    match instruction {
        Instruction::SourceCopy(offset, length) => {
            text.extend_from_slice(&view[offset..offset + length])?;
            Ok(new_data)
        }
        Instruction::NewData(length) => {
            let (taken, left) = new_data.split_at(length);
            text.extend_from_slice(taken)?;
            Ok(left)
        }
    }
}

/// Appends what the instructions of a judged section give. An `Err` may leave a part of it.
pub fn carry_out(
    view: &[u8],
    section: &[u8],
    new_data: &[u8],
    text: &mut Vec<u8>,
) -> Result<(), AllocError>
    requires { IsRunnable (length view.now) section.now (length new_data.now) }
    ensures ok { OnOk result ((is : List Instruction) → instructions_of (length view.now) section.now ≡ Ok is
        → text.new.items ≡ text.old.items ++ target_of view.now new_data.now is) }
    ensures grows { SumsGrow text.old.items text.new.items }
{
    let mut rest = section;
    let mut fresh = new_data;
    while !rest.is_empty() {
        let Ok((instruction, behind)) = first_instruction(view.len(), rest) else {
            unreachable!();
        };
        fresh = carry_out_one(view, instruction, fresh, text)?;
        rest = behind;
    }
    Ok(())
}
