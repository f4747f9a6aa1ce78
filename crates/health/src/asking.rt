//! The youngest revision is asked for.
ghost use Rattle.std.specs.Prelude.{IfOk};
ghost use Rattle.health.specs.Answers.{IsNamed};

use crate::answers::{failure_number, success_params, youngest_in};
use crate::fault::AskFault;
use items::{Item, ItemReader};
use std::alloc::Global;
use std::io::{Read, Write};

/// How many answers come before that with the revision: to the greeting, the login and the URL there are four, and the
/// command's own answer comes after one that asks for no login.
const ANSWERS_BEFORE: usize = 5;

/// How often is read at most until an answer is whole.
const MOST_READS: usize = 1_024;

/// Makes the fault of an answer that is not the one that is waited for.
fn fault_of(answer: &Item) -> AskFault {
    match (success_params(answer), failure_number(answer)) {
        (None, Some(number)) => AskFault::Failed(number),
        (None, None) => AskFault::Failed(0),
        (Some(_), _) => AskFault::Unknown,
    }
}

/// Reads the next answer.
fn next_answer<S: Read>(stream: &mut S, reader: &mut ItemReader) -> Result<Item, AskFault> {
    let mut piece = [0; 4096];
    for _ in 0..MOST_READS {
        if let Some(answer) = reader.next()? {
            return Ok(answer);
        }
        let count = stream.read(&mut piece)?;
        if count == 0 {
            return Err(AskFault::Ended);
        }
        reader.feed(&piece[..count])?;
    }
    Err(AskFault::Unknown)
}

/// Reads an answer that is to tell of success.
fn pass_answer<S: Read>(stream: &mut S, reader: &mut ItemReader) -> Result<(), AskFault> {
    let answer = next_answer(stream, reader)?;
    match success_params(&answer) {
        Some(_) => Ok(()),
        None => Err(fault_of(&answer)),
    }
}

/// Asks the server at the other end of a stream for the youngest revision of the repository at a URL. It is greeted, and
/// logged in to without a name.
pub fn ask_youngest<S: Read + Write>(
    alloc: Global,
    stream: &mut S,
    url: &str,
) -> Result<u64, AskFault>
    ensures { IfOk result IsNamed }
{
    let asked = format!(in alloc;
        "( 2 ( edit-pipeline ) {}:{url} ) ( ANONYMOUS ( 0: ) ) ( get-latest-rev ( ) ) ",
        url.len()
    )?;
    stream.write_all(asked.as_bytes())?;
    let mut reader = ItemReader::new(alloc);
    for _ in 0..ANSWERS_BEFORE {
        pass_answer(stream, &mut reader)?;
    }
    let answer = next_answer(stream, &mut reader)?;
    match youngest_in(&answer) {
        Some(revision) => Ok(revision),
        None => Err(fault_of(&answer)),
    }
}
