//! Properties and texts of what is open in an edit.
ghost use Rattle.items.specs.View.{values_of};
ghost use Rattle.wire_forms.specs.Answering.{Reads};
ghost use Rattle.wire_edits.specs.Texts.{property, with_checksum, chunk, token_alone};

use crate::editing::PropertyChange;
use byte_string::ByteString;
use items::Item;
use wire_forms::CommandFault::{self, BadParameters};
use wire_forms::{copy_optional, read_list, read_optional_string, read_string};

/// Reads `( token name [ value ] )`.
pub fn read_property(params: &[Item]) -> Result<PropertyChange, CommandFault>
    ensures { Reads result (property (values_of params.now)) }
{
    let (token, rest) = read_string(params).ok_or(BadParameters)?;
    let (name, rest) = read_string(rest).ok_or(BadParameters)?;
    let (value, _) = read_list(rest).ok_or(BadParameters)?;
    let value = read_optional_string(value).ok_or(BadParameters)?;
    Ok(PropertyChange {
        token: token.clone()?,
        name: name.clone()?,
        value: copy_optional(value)?,
    })
}

/// Reads `( token [ checksum ] )`.
pub fn read_with_checksum(params: &[Item]) -> Result<(ByteString, Option<ByteString>), CommandFault>
    ensures { Reads result (with_checksum (values_of params.now)) }
{
    let (token, rest) = read_string(params).ok_or(BadParameters)?;
    let (checksum, _) = read_list(rest).ok_or(BadParameters)?;
    let checksum = read_optional_string(checksum).ok_or(BadParameters)?;
    Ok((token.clone()?, copy_optional(checksum)?))
}

/// Reads `( token bytes )`.
pub fn read_chunk(params: &[Item]) -> Result<(ByteString, ByteString), CommandFault>
    ensures { Reads result (chunk (values_of params.now)) }
{
    let (token, rest) = read_string(params).ok_or(BadParameters)?;
    let (bytes, _) = read_string(rest).ok_or(BadParameters)?;
    Ok((token.clone()?, bytes.clone()?))
}

/// Reads `( token )`.
pub fn read_token_alone(params: &[Item]) -> Result<ByteString, CommandFault>
    ensures { Reads result (token_alone (values_of params.now)) }
{
    let (token, _) = read_string(params).ok_or(BadParameters)?;
    Ok(token.clone()?)
}
