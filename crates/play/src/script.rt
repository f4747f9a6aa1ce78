//! A script, line by line.

use crate::fault::ScriptFault;
use crate::player::Player;
use flatrepo::{FlatRepo, InMemory};
use script_lines::Line;
use std::alloc::Global;
use std::io::{self, BufRead, BufReader, BufWriter, Write};
use std::mem::drop;
use world::World;

/// Plays the script on standard input, up to its end or to the first line that is not played.
pub fn play_script<R: InMemory>(rt: &HostRuntime) -> Result<(), ScriptFault> {
    let alloc = rt.alloc();
    let mut output = BufWriter::new(alloc, io::writer(rt))?;
    let mut player: Player<R> = Player::new(*rt);
    play_lines(rt, alloc, &mut player, &mut output)
}

/// Plays the lines of standard input.
fn play_lines<R: InMemory, W: Write>(
    rt: &impl Input,
    alloc: Global,
    player: &mut Player<R>,
    output: &mut W,
) -> Result<(), ScriptFault> {
    for (i, text) in BufReader::new(alloc, rt.reader())?
        .split(alloc, b'\n')
        .enumerate()
    {
        play_line(alloc, player, i.saturating_add(1), &text?, output)?;
    }
    Ok(())
}

/// Plays the line of this number, and writes what it is answered.
fn play_line<R: InMemory, W: Write>(
    alloc: Global,
    player: &mut Player<R>,
    number: usize,
    text: &[u8],
    output: &mut W,
) -> Result<(), ScriptFault> {
    let answer = answered(alloc, player, number, text)?;
    say(answer, output)
}

/// Plays the line of this number, and gives what it is answered by, if by anything.
fn answered<R: InMemory>(
    alloc: Global,
    player: &mut Player<R>,
    number: usize,
    text: &[u8],
) -> Result<Option<String>, ScriptFault> {
    let played = match Line::parse(alloc, text) {
        Ok(line) => player.play(line),
        Err(fault) => Err(fault),
    };
    match played {
        Ok(answer) => Ok(answer),
        Err(fault) => Err(ScriptFault::Line(number, fault)),
    }
}

/// Writes an answer at once, so that who asks may wait for it.
fn say<W: Write>(answer: Option<String>, output: &mut W) -> Result<(), ScriptFault> {
    let Some(answer) = answer else {
        return Ok(());
    };
    let written = writeln!(output, "{answer}");
    drop(answer);
    written?;
    output.flush()?;
    Ok(())
}

/// What plays a script over both repositories.
#[derive(Drop)]
struct Both {
    shared: Player<World>,
    flat: Player<FlatRepo>,
}

/// Plays the script on standard input over both repositories, up to its end or to the first line that is not played or has
/// another answer over the plain program.
pub fn play_over_both(rt: &HostRuntime) -> Result<(), ScriptFault> {
    let alloc = rt.alloc();
    let mut output = BufWriter::new(alloc, io::writer(rt))?;
    let mut both = Both {
        shared: Player::new(*rt),
        flat: Player::new(*rt),
    };
    let played = play_lines_over_both(rt, alloc, &mut both, &mut output);
    drop(both);
    played
}

/// Plays the lines of standard input over both.
fn play_lines_over_both<W: Write>(
    rt: &impl Input,
    alloc: Global,
    both: &mut Both,
    output: &mut W,
) -> Result<(), ScriptFault> {
    for (i, text) in BufReader::new(alloc, rt.reader())?
        .split(alloc, b'\n')
        .enumerate()
    {
        play_line_over_both(alloc, both, i.saturating_add(1), &text?, output)?;
    }
    Ok(())
}

/// Plays the line of this number over both, and writes what it is answered.
fn play_line_over_both<W: Write>(
    alloc: Global,
    both: &mut Both,
    number: usize,
    text: &[u8],
    output: &mut W,
) -> Result<(), ScriptFault> {
    let answer = answered(alloc, &mut both.shared, number, text)?;
    let has_same = has_answer(alloc, &mut both.flat, number, text, &answer);
    if matches!(has_same, Ok(true)) {
        return say(answer, output);
    }
    drop(answer);
    has_same?;
    Err(ScriptFault::Differs(number))
}

/// Plays the line of this number, and says whether it has this answer.
fn has_answer<R: InMemory>(
    alloc: Global,
    player: &mut Player<R>,
    number: usize,
    text: &[u8],
    wanted: &Option<String>,
) -> Result<bool, ScriptFault> {
    let answer = answered(alloc, player, number, text)?;
    let is_same = match (&answer, wanted) {
        (None, None) => true,
        (Some(answer), Some(wanted)) => answer.as_str() == wanted.as_str(),
        (None, Some(_)) | (Some(_), None) => false,
    };
    drop(answer);
    Ok(is_same)
}
