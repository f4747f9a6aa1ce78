//! What a server answers.
ghost use Rattle.std.specs.Prelude.{◌≡◌, option_map};
ghost use Rattle.items.specs.View.{value_of, values_of};
ghost use Rattle.health.specs.Answers.{failure_number, success_params, youngest_in};

use items::Item;
use wire_forms::{read_form, read_items, read_number};

/// Gives the parameters of an answer that is none of a failure.
pub(crate) fn success_params(item: &Item) -> Option<&[Item]>
    ensures { option_map (λ s. values_of s.now) result ≡ success_params (value_of item.now) }
{
    match read_form(item) {
        Some((name, params)) if name == b"success".as_slice() => Some(params),
        _ => None,
    }
}

/// Gives the number of the first reason that a failure names.
pub(crate) fn failure_number(item: &Item) -> Option<u64>
    ensures { result ≡ failure_number (value_of item.now) }
{
    let (name, reasons) = read_form(item)?;
    if name != b"failure".as_slice() {
        return None;
    }
    let (number, _) = read_number(read_items(reasons.first()?)?)?;
    Some(number)
}

/// Gives the youngest revision that an answer names.
pub(crate) fn youngest_in(item: &Item) -> Option<u64>
    ensures { result ≡ youngest_in (value_of item.now) }
{
    let (number, _) = read_number(success_params(item)?)?;
    Some(number)
}
