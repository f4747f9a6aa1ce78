//! What an administrator is told, one line for each event, with its moment.

use crate::moment::moment_now;
use crate::room::Room;
use crossbeam_channel::{Receiver, Sender};
use dates::date_text;
use std::alloc::{AllocError, Global};
use std::io::Eprint;
use std::sync::Wait;
use std::time::Clock;

/// Takes lines for standard error, unless it is to be quiet, and waits for nobody.
pub struct Journal<'a, R> {
    rt: &'a R,
    alloc: Global,
    is_quiet: bool,
    room: &'a Room,
    lines: Sender<String>,
}

impl<'a, R> Drop for Journal<'a, R> {
    fn drop(self) {
        let Journal {
            rt: _,
            alloc: _,
            is_quiet: _,
            room: _,
            lines: _,
        } = self;
    }
}

/// Puts a moment before a text, and the end of the line after it.
fn line_of<R: Clock>(
    rt: &R,
    alloc: Global,
    text: Result<String, AllocError>,
) -> Result<String, AllocError> {
    let text = text?;
    let moment = date_text(alloc, moment_now(rt))?;
    format!(in alloc; "{moment} {text}\n")
}

/// Makes the line that tells how many lines were dropped.
fn dropped_line<R: Clock>(rt: &R, alloc: Global, dropped: u64) -> Result<String, AllocError> {
    let text = format!(in alloc; "lines that found no room were dropped: {dropped}");
    line_of(rt, alloc, text)
}

impl<'a, R> Journal<'a, R> {
    /// Makes a journal whose lines go this way to who writes them.
    pub fn new(
        rt: &'a R,
        alloc: Global,
        is_quiet: bool,
        room: &'a Room,
        lines: Sender<String>,
    ) -> Self {
        Journal {
            rt,
            alloc,
            is_quiet,
            room,
            lines,
        }
    }

    /// Says whether nothing is told.
    pub fn is_quiet(&self) -> bool {
        self.is_quiet
    }
}

impl<'a, R: Eprint + Clock> Journal<'a, R> {
    /// Writes a line at once, before there is anybody else to tell.
    pub fn write_now(&self, text: Result<String, AllocError>) {
        if self.is_quiet {
            return;
        }
        if let Ok(line) = line_of(self.rt, self.alloc, text) {
            let _ = eprint!(self.rt; "{line}");
        }
    }
}

impl<'a, R: Clock + Wait> Journal<'a, R> {
    /// Makes the line of a text; before it one that tells how many lines were dropped, if any were.
    fn lines_of(
        &self,
        dropped: u64,
        text: Result<String, AllocError>,
    ) -> Result<String, AllocError> {
        let line = line_of(self.rt, self.alloc, text)?;
        if dropped == 0 {
            return Ok(line);
        }
        let told = dropped_line(self.rt, self.alloc, dropped)?;
        format!(in self.alloc; "{told}{line}")
    }

    /// Sends lines to who writes them, and says whether they are on their way.
    fn send(&self, lines: Result<String, AllocError>) -> bool {
        match lines {
            Ok(lines) => self.lines.send(self.rt, lines).is_ok(),
            Err(AllocError) => false,
        }
    }

    /// Tells a text in a line with its moment. Where too many lines wait, or there is no memory for it, it is dropped, and once
    /// there is room a line says how many were.
    pub fn tell(&self, text: Result<String, AllocError>) {
        if self.is_quiet || !self.room.take() {
            return;
        }
        let dropped = self.room.take_dropped();
        if !self.send(self.lines_of(dropped, text)) {
            self.room.lose(u64::saturating_add(dropped, 1));
        }
    }
}

/// Writes lines as they come, until no more can come. What standard error does not take is lost.
pub fn write_lines<R: Eprint + Clock + Wait>(
    rt: &R,
    alloc: Global,
    room: &Room,
    lines: &Receiver<String>,
) {
    for _ in rt.forever() {
        let Ok(line) = lines.recv(rt) else {
            break;
        };
        // a line is written at once, so that those of several programs are not mixed
        let _ = eprint!(rt; "{line}");
        room.give_back();
    }
    let dropped = room.take_dropped();
    if dropped > 0 {
        if let Ok(line) = dropped_line(rt, alloc, dropped) {
            let _ = eprint!(rt; "{line}");
        }
    }
}
