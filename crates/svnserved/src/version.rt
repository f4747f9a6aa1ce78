//! What the program says of itself.

use crate::fault::ProgramFault;
use command_line::VERSION;
use serving::Reason;
use std::alloc::Global;
use std::fs::File;
use std::os::unix::fs::FileExt;
use std::{fmt, io};

/// Which repositories it serves.
const REPOSITORIES: &str = "reads and writes repositories in formats 2 and 3";

/// The file that the program was started from.
const PROGRAM: &str = "/proc/self/exe";

/// Where the header of an ELF file says where the table of its sections is, and how many it has.
const TABLE_AT: u64 = 40;

const COUNT_AT: u64 = 60;

/// How long an entry of the table is, and where it has the section's flags, place and length.
const ENTRY_LENGTH: u64 = 64;

const FLAGS_AT: u64 = 8;

const OFFSET_AT: u64 = 24;

const LENGTH_AT: u64 = 32;

/// The flags of a section of texts that is not loaded, as `.comment` is.
const TEXTS: u64 = 0x30;

/// What is in the section `.comment` before the sum of the logic in which a program is proved. Without proofs it is not
/// there.
const LOGIC: &[u8] = b"logic=";

/// Reads a number of eight bytes.
fn long_at(file: &File, place: u64) -> io::Result<u64> {
    let mut bytes = [0; 8];
    file.read_exact_at(&mut bytes, place)?;
    Ok(u64::from_le_bytes(bytes))
}

/// Reads a number of two bytes.
fn short_at(file: &File, place: u64) -> io::Result<u16> {
    let mut bytes = [0; 2];
    file.read_exact_at(&mut bytes, place)?;
    Ok(u16::from_le_bytes(bytes))
}

/// Gives the digits after the first `logic=` in a section's bytes, if it has one.
fn logic_in(texts: &[u8]) -> Option<&str> {
    for at in 0..texts.len() {
        if let Some(rest) = texts[at..].strip_prefix(LOGIC) {
            let digits = rest.split(|byte| !byte.is_ascii_hexdigit()).next()?;
            return str::from_utf8(digits).ok();
        }
    }
    None
}

/// Finds the logic in the section of this entry of the table, whose beginning it reads.
fn logic_of_section(alloc: Global, file: &File, entry: u64) -> io::Result<Option<String>> {
    let offset = long_at(file, entry.wrapping_add(OFFSET_AT))?;
    let length = long_at(file, entry.wrapping_add(LENGTH_AT))?;
    let mut room = [0; 4096];
    let texts = &mut room[..length.min(4096) as usize];
    file.read_exact_at(texts, offset)?;
    match logic_in(texts) {
        Some(logic) => Ok(Some(String::from_str(alloc, logic)?)),
        None => Ok(None),
    }
}

/// What the program knows of its proof.
#[derive(Drop)]
enum Proof {
    InLogic(String),
    Without,
    /// Its file cannot be read, or has no section that says it.
    Unknown,
}

/// Finds in the file of the program that runs whether it is proved.
fn find_proof(rt: &HostRuntime) -> io::Result<Proof> {
    let file = File::open(rt, PROGRAM)?;
    let table = long_at(&file, TABLE_AT)?;
    let count = short_at(&file, COUNT_AT)?;
    let mut is_said = false;
    for number in 0..count {
        let entry = table.wrapping_add(u64::from(number) * ENTRY_LENGTH);
        if long_at(&file, entry.wrapping_add(FLAGS_AT))? == TEXTS {
            if let Some(logic) = logic_of_section(rt.alloc(), &file, entry)? {
                return Ok(Proof::InLogic(logic));
            }
            is_said = true;
        }
    }
    Ok(if is_said {
        Proof::Without
    } else {
        Proof::Unknown
    })
}

impl fmt::Display for Proof {
    fn fmt<W: fmt::Write>(&self, f: &mut fmt::Formatter<W>) -> fmt::Result {
        match self {
            Proof::InLogic(logic) => write!(f, "proved in the logic {logic}"),
            Proof::Without => {
                f.write_str("NOT PROVED: it has checks at run time in place of proofs")
            }
            Proof::Unknown => {
                write!(
                    f,
                    "whether it is proved is not known: {PROGRAM} does not say it"
                )
            }
        }
    }
}

/// Prints the version, whether the program is proved, and which repositories it reads.
pub fn tell_version(rt: &HostRuntime) -> Result<(), ProgramFault> {
    let proof = find_proof(rt).unwrap_or(Proof::Unknown);
    match print!(rt; "svnserved {VERSION}\n{proof}\n{REPOSITORIES}\n") {
        Ok(()) => Ok(()),
        Err(error) => Err(ProgramFault::Output(Reason::of(&error))),
    }
}
