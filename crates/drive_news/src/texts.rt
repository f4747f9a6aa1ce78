//! Which text of a file is told.
ghost use Rattle.std.specs.Prelude.{◌≡◌, IfOk, option_copied};
ghost use Rattle.drive_news.specs.News.{other_text, text_sent};
ghost use Rattle.repo_api.specs.Properties.{is_same_value};

use repo_api::FileText;
use reporter::Purpose;
use small_rules::is_same_text;
use std::alloc::AllocError;

/// Says whether both are the same text, or both none.
pub(crate) fn are_same_texts(old: Option<&FileText>, new: Option<&FileText>) -> bool
    ensures { result ≡ is_same_value (option_copied old.entry) (option_copied new.entry) }
{
    match (old, new) {
        (None, None) => true,
        (None, Some(_)) | (Some(_), None) => false,
        (Some(old), Some(new)) => is_same_text(old, new),
    }
}

/// Gives the text of a file, unless it is the one that the client has.
pub(crate) fn other_text<'a>(
    old: Option<&FileText>,
    new: Option<&'a FileText>,
) -> Option<&'a FileText>
    ensures { option_copied result
        ≡ other_text (option_copied old.entry) (option_copied new.entry) }
{
    let text = new?;
    match old {
        None => Some(text),
        Some(old) => {
            if is_same_text(old, text) {
                None
            } else {
                Some(text)
            }
        }
    }
}

/// Gives the text as it is sent: a status and a summary send no texts. It is shared, and not copied.
pub(crate) fn text_sent(purpose: Purpose, text: &FileText) -> Result<FileText, AllocError>
    ensures { IfOk result (λ sent. sent ≡ text_sent purpose text.now) }
{
    match purpose {
        Purpose::Update => text.clone(),
        Purpose::Switch => text.clone(),
        Purpose::Diff => text.clone(),
        Purpose::Status => Ok(FileText::empty()),
        Purpose::Summary => Ok(FileText::empty()),
    }
}
