//! Dates of revisions.
ghost use Rattle.std.specs.{Prelude.{◌≡◌, length, option_copied}, List.{list_all, zip}};
ghost use Rattle.repo_api.specs.Dates.{fits, date_form, is_date_text, is_date_name, date_of, is_up_to};

use crate::properties::Properties;

/// The form of a date: a `0` stands for any digit.
const DATE_FORM: &[u8] = b"0000-00-00T00:00:00.000000Z";

/// Says whether the text is in the form of a date, `YYYY-MM-DDThh:mm:ss.uuuuuuZ` with any digits.
pub fn is_date_text(text: &[u8]) -> bool
    ensures { result ≡ is_date_text text.now }
{
    text.len() == 27 && are_fitting(text)
}

/// Says whether each byte may stand where the form has the one at its place.
fn are_fitting(text: &[u8]) -> bool
    requires { length text.now ≡ 27 }
    ensures { result ≡ list_all (λ e. fits e.1 e.0) (zip text.now date_form) }
{
    text.iter()
        .zip(DATE_FORM)
        .all(|(byte, form)| fits(*form, *byte))
}

/// Says whether the byte may stand where the form has this one.
fn fits(form: u8, byte: u8) -> bool
    ensures { result ≡ fits form byte }
{
    if form == b'0' {
        (b'0'..=b'9').contains(&byte)
    } else {
        byte == form
    }
}

/// Finds the value of `svn:date`.
pub fn date_of(properties: &Properties) -> Option<&[u8]>
    ensures { option_copied result ≡ date_of properties.now }
{
    for (name, value) in properties.iter() {
        if is_date_name(name.as_slice()) {
            return Some(value.as_slice());
        }
    }
    None
}

/// Says whether the name is `svn:date`.
fn is_date_name(name: &[u8]) -> bool
    ensures { result ≡ is_date_name name.now }
{
    name == b"svn:date".as_slice()
}

/// Says whether there is a date text, and it is not after the date.
pub fn is_up_to(date: &[u8], text: Option<&[u8]>) -> bool
    ensures { result ≡ is_up_to date.now (option_copied text.entry) }
{
    match text {
        None => false,
        Some(text) => is_date_text(text) && text.cmp(date).is_le(),
    }
}
