//! Parameters that these commands share.
ghost use Rattle.std.specs.Prelude.{◌≡◌, option_map};
ghost use Rattle.items.specs.View.{values_of};
ghost use Rattle.wire_reports.specs.{Depths.depth_at_end, Parameters.token_first};

use crate::depth_word::{DepthWord, depth_word};
use byte_string::ByteString;
use items::Item;
use wire_forms::read_optional_string;

/// Reads `? [ token ]`: the token, if there is one, and what comes after it.
pub fn read_token(items: &[Item]) -> Option<(Option<&ByteString>, &[Item])>
    ensures { option_map (λ p. (option_map (λ token. token.now) p.0, values_of p.1.now)) result
        ≡ token_first (values_of items.now) }
{
    match items {
        [] => Some((None, items)),
        [Item::List(token), rest @ ..] => Some((read_optional_string(token.as_slice())?, rest)),
        _ => None,
    }
}

/// Reads `? depth`: the depth, if there is one.
pub fn read_last_depth(items: &[Item]) -> Option<Option<DepthWord>>
    ensures { result ≡ depth_at_end (values_of items.now) }
{
    match items {
        [] => Some(None),
        [Item::Word(word), ..] => Some(Some(depth_word(word.as_bytes())?)),
        _ => None,
    }
}
