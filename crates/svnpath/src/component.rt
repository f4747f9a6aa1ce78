//! The components of a path: which are right, and the lists of them that texts name.
ghost use Rattle.std.specs.Prelude.{◌≡◌, ◌+◌, ◌⊎◌, [], ◌∷◌, ◌++◌, map, length, None, Some, Err, IfOk, OnOk, IfErr, MatchResult, is_none};
ghost use Rattle.std.specs.{List.{slice_split, list_any}, Str.is_utf8, Option.option_or};
ghost use Rattle.svnpath.specs.{Components.{component_fault, depth_fault, is_forbidden, is_forbidden_byte, beneath, IsRightPath}, Texts.is_slash};
ghost use Rattle.svnpath.specs.Spelled.{read_part};

use crate::fault::PathFault;
use byte_string::ByteString;
use percent_encoding::percent_decode;
use std::alloc::{AllocError, Global};

/// The most bytes of a component.
pub const COMPONENT_LIMIT: usize = 255;

/// The most components of a path that a text or a URL names.
pub const DEPTH_LIMIT: usize = 64;

/// How a text spells components.
#[derive(Clone, Copy)]
pub(crate) enum Spelling {
    Plain,
    PercentEncoded,
}

/// Says whether a component holds NUL, a line feed or `/`.
fn holds_forbidden_byte(component: &[u8]) -> bool
    ensures { result ≡ list_any is_forbidden_byte component.now }
{
    component
        .iter()
        .any(|byte| *byte == 0 || *byte == b'\n' || *byte == b'/')
}

/// Says whether the bytes of a component are UTF-8.
fn is_text(component: &[u8]) -> bool
    ensures { result ≡ is_utf8 component.now }
{
    str::from_utf8(component).is_ok()
}

/// Says whether a component holds a forbidden byte, is `.` or `..`, or is not UTF-8. The empty one is not forbidden.
fn is_forbidden(component: &[u8]) -> bool
    ensures { result ≡ is_forbidden component.now }
{
    holds_forbidden_byte(component)
        || component == b".".as_slice()
        || component == b"..".as_slice()
        || !is_text(component)
}

/// Checks that a component is not empty, not forbidden and not too long; the first of these that fails is the
/// fault.
fn judge(component: &[u8]) -> Result<(), PathFault>
    ensures { MatchResult result (λ _. component_fault component.now ≡ None)
        (λ fault. component_fault component.now ≡ Some fault) }
{
    if component.is_empty() {
        return Err(PathFault::EmptyComponent);
    }
    if is_forbidden(component) {
        return Err(PathFault::ForbiddenComponent);
    }
    if component.len() > COMPONENT_LIMIT {
        return Err(PathFault::TooLong);
    }
    Ok(())
}

/// Says whether these bytes may be a component of a path.
pub fn is_component(component: &[u8]) -> bool
    ensures { result ≡ is_none (component_fault component.now) }
{
    judge(component).is_ok()
}

/// Puts a component beneath the others, unless it is refused there.
fn push_component(components: &mut Vec<ByteString>, component: Vec<u8>) -> Result<(), PathFault>
    ensures ok { OnOk result (components.new.items ≡ components.old.items ++ component.items ∷ []) }
    ensures right { OnOk result
        (option_or (component_fault component.items) (depth_fault (length components.old.items)) ≡ None) }
    ensures err { IfErr result (λ fault.
        (option_or (component_fault component.items) (depth_fault (length components.old.items)) ≡ Some fault)
        ⊎ (fault ≡ PathFault.NoMemory)) }
{
    judge(component.as_slice())?;
    if components.len() >= DEPTH_LIMIT {
        return Err(PathFault::TooDeep);
    }
    components.push(ByteString::new(component))?;
    Ok(())
}

/// Reads the bytes that a part of a text spells.
pub(crate) fn read_part(
    alloc: Global,
    spelling: Spelling,
    part: &[u8],
) -> Result<Vec<u8>, AllocError>
    ensures { IfOk result (λ component. component.items ≡ read_part spelling part.now) }
{
    match spelling {
        Spelling::Plain => Vec::from_slice(alloc, part),
        Spelling::PercentEncoded => {
            let mut component = Vec::new(alloc);
            percent_decode(part).append_to(&mut component)?;
            Ok(component)
        }
    }
}

/// Gives the components above, and beneath them those between the slashes of the text.
pub(crate) fn append_parts(
    alloc: Global,
    above: Vec<ByteString>,
    spelling: Spelling,
    text: &[u8],
) -> Result<Vec<ByteString>, PathFault>
    ensures value { MatchResult result
        (λ components. beneath above.items (map (read_part spelling) (slice_split is_slash text.now)) ≡ Ok components.items)
        (λ fault. (beneath above.items (map (read_part spelling) (slice_split is_slash text.now))
        ≡ Err fault) ⊎ (fault ≡ PathFault.NoMemory)) }
    ensures right { IsRightPath above.items
        → IfOk result (λ components. IsRightPath components.items) }
{
    let mut components = above;
    for part in text.split(|byte| *byte == b'/') {
        push_component(&mut components, read_part(alloc, spelling, part)?)?;
    }
    Ok(components)
}
