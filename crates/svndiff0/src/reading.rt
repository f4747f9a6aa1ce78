//! Reading on in a document.

ghost use Rattle.svndiff0.specs.{Read.Gives, Document.header_at, Sums.SumsGrow, Stages.{HasTextOf, ReadsOn, reading_of}};

use crate::fault::DiffFault;
use crate::stage::Stage;
use crate::window::apply_windows;

/// `SVN` and the version.
pub const HEADER: [u8; 4] = [b'S', b'V', b'N', 0];

/// Gives the bytes after the header; `None` where it isn't whole.
#[tactic(auto, unfolding(crate::specs::Document::header_at))]
fn skip_header(bytes: &[u8]) -> Result<Option<&[u8]>, DiffFault>
    ensures { Gives (λ x. x.now) result (header_at bytes.now) }
{
    let mut rest = bytes;
    for wanted in &HEADER {
        let Some((byte, behind)) = rest.split_first() else {
            return Ok(None);
        };
        if *byte != *wanted {
            return Err(DiffFault::BadHeader);
        }
        rest = behind;
    }
    Ok(Some(rest))
}

/// Reads on from the bytes: the header, where it isn't read yet, and windows. Gives how far that came, and the bytes
/// that are left. An `Err` may leave more text.
pub fn read_on<'a>(
    stage: Stage,
    base: &[u8],
    text: &mut Vec<u8>,
    bytes: &'a [u8],
) -> Result<(Stage, &'a [u8]), DiffFault>
    requires { HasTextOf stage text.old.items }
    ensures reads { ReadsOn (λ x. x.now) base.now
        (reading_of stage text.old.items bytes.now) result bytes.now text.new.items }
    ensures grows { SumsGrow text.old.items text.new.items }
{
    let windows = match stage {
        Stage::Header => match skip_header(bytes)? {
            Some(windows) => windows,
            None => return Ok((Stage::Header, bytes)),
        },
        Stage::Windows => bytes,
        Stage::Broken(fault) => return Err(fault),
    };
    let rest = apply_windows(base, text, windows)?;
    Ok((Stage::Windows, rest))
}
