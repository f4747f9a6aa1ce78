//! URLs of the repository.
ghost use Rattle.std.specs.{Prelude.{◌≡◌, ◌⊎◌, [], ◌∷◌, map, Ok, Err, IfOk, MatchResult, MatchOption}, List.{slice_split, position, list_all}};
ghost use Rattle.percent_encoding.specs.Percent.{percent_decode};
ghost use Rattle.svnpath.specs.{Components.{AnswersPath, IsRightPath}, Texts.is_slash, Urls.{read_url, path_of_text, root_of_text, path_of_url}};
ghost use Rattle.svnpath.specs.Urls.{path_of_segments, root_of_url, until_slash, is_before_query, is_root, names_root, root_of, NamesPath};

use crate::component::{Spelling, append_parts, read_part};
use crate::fault::PathFault;
use crate::path::{Path, without_last_slash};
use byte_string::ByteString;
use std::alloc::{AllocError, Global};
use url::{ParseError, Position, Url};

/// What a URL of the repository names.
#[derive(Debug, Drop)]
pub struct RepositoryUrl {
    /// The repository's root URL, as `root_url` gives it.
    pub root: ByteString,
    pub path: Path,
}

impl RepositoryUrl {
    /// Reads a URL of the repository of this name, as `Path::from_url` and `root_url` do.
    ///
    /// # Errors
    ///
    /// As for `Path::from_url`.
    pub fn read(alloc: Global, url: &[u8], name: &str) -> Result<Self, PathFault>
        ensures path { MatchResult result (λ named. path_of_text url.now name.now ≡ Ok named.path)
            (λ fault. (path_of_text url.now name.now ≡ Err fault) ⊎ (fault ≡ PathFault.NoMemory)) }
        ensures root { IfOk result (λ named. root_of_text url.now name.now ≡ Ok named.root) }
        ensures names { IfOk result (λ named. NamesPath url.now name.now named.path) }
    {
        let parsed = read_url(alloc, url)?;
        let path = path_of_url(alloc, &parsed, name)?;
        let root = root_of(alloc, url, &parsed, name)?;
        Ok(RepositoryUrl { root, path })
    }
}

/// Makes the root URL of the repository of this name, by the URL of something in it. A client wants it in the bytes
/// that it sent: it is the text up to its fourth `/`, or all of it, where that names the root by itself, as in
/// `svn://host:03690/r/x`. Otherwise it is the URL up to its path, as `url` spells it, then `/` and the name.
///
/// # Errors
///
/// `NotThisRepository` for a text that is no URL; `NoMemory`. Whether the URL is one of this
/// repository is the test of `Path::from_url`.
pub fn root_url(alloc: Global, url: &[u8], name: &str) -> Result<ByteString, PathFault>
    ensures { AnswersPath result (root_of_text url.now name.now) }
{
    let parsed = read_url(alloc, url)?;
    Ok(root_of(alloc, url, &parsed, name)?)
}

/// Makes the root URL, by the text of a URL and what it was read as.
fn root_of(alloc: Global, text: &[u8], url: &Url, name: &str) -> Result<ByteString, AllocError>
    ensures { IfOk result (λ root. root ≡ root_of text.now name.now url.now) }
{
    let front = until_slash(text, 3);
    if names_root(alloc, front, name)? {
        ByteString::from_slice(alloc, front)
    } else {
        root_of_url(alloc, url, name)
    }
}

/// Gives the text up to the slash that so many others stand before, or all of it.
fn until_slash(text: &[u8], others: u64) -> &[u8]
    ensures { result.now ≡ until_slash others text.now }
{
    let mut left = others;
    for (i, byte) in text.iter().enumerate() {
        if *byte == b'/' {
            if left == 0 {
                return &text[..i];
            }
            left -= 1;
        }
    }
    text
}

/// Says whether the text is a URL of the repository's root, without a query and a fragment.
fn names_root(alloc: Global, text: &[u8], name: &str) -> Result<bool, AllocError>
    ensures { IfOk result (λ answer. answer ≡ names_root text.now name.now) }
{
    if are_before_query(text) {
        is_root(alloc, text, name)
    } else {
        Ok(false)
    }
}

/// Says whether the text is a URL of the repository's root.
fn is_root(alloc: Global, text: &[u8], name: &str) -> Result<bool, AllocError>
    ensures { IfOk result (λ answer. answer ≡ is_root (path_of_text text.now name.now)) }
{
    match Path::from_url(alloc, text, name) {
        Ok(path) => Ok(path.is_root()),
        Err(PathFault::NoMemory) => Err(AllocError),
        Err(_) => Ok(false),
    }
}

/// Says whether none of the text's bytes begins a query or a fragment.
fn are_before_query(text: &[u8]) -> bool
    ensures { result ≡ list_all is_before_query text.now }
{
    text.iter().all(|b| is_before_query(*b))
}

/// Says whether a byte is neither `?` nor `#`.
fn is_before_query(b: u8) -> bool
    ensures { result ≡ is_before_query b }
{
    !(b == b'?' || b == b'#')
}

/// Reads a URL of any scheme. A text that is not UTF-8 or not a URL is `NotThisRepository`; an `Overflow` of `url`
/// counts as `NoMemory`.
pub(crate) fn read_url(alloc: Global, text: &[u8]) -> Result<Url, PathFault>
    ensures { AnswersPath result (read_url text.now) }
{
    let Ok(text) = str::from_utf8(text) else {
        return Err(PathFault::NotThisRepository);
    };
    match Url::parse(alloc, text) {
        Ok(url) => Ok(url),
        Err(ParseError::OutOfMemory | ParseError::Overflow) => Err(PathFault::NoMemory),
        Err(_) => Err(PathFault::NotThisRepository),
    }
}

/// Finds the path that a URL names in the repository of this name. It is `NotThisRepository` for another scheme, a
/// path of the URL that does not begin with `/`, or another name; else the fault is as for `Path::parse`.
pub(crate) fn path_of_url(alloc: Global, url: &Url, name: &str) -> Result<Path, PathFault>
    ensures value { AnswersPath result (path_of_url name.now url.now) }
    ensures right { IfOk result IsRightPath }
{
    if url.scheme() != "svn" && url.scheme() != "svn+ssh" {
        return Err(PathFault::NotThisRepository);
    }
    match url.path().as_bytes().strip_prefix(b"/".as_slice()) {
        Some(text) => path_of_segments(alloc, without_last_slash(text), name),
        None => Err(PathFault::NotThisRepository),
    }
}

/// Reads the path whose components follow the repository's name.
fn path_of_segments(alloc: Global, text: &[u8], name: &str) -> Result<Path, PathFault>
    ensures value { AnswersPath result (path_of_segments name.now
        (map percent_decode (slice_split is_slash text.now))) }
    ensures right { IfOk result IsRightPath }
{
    let (first, others) = split_first_part(text);
    if read_part(alloc, Spelling::PercentEncoded, first)?.as_slice() != name.as_bytes() {
        return Err(PathFault::NotThisRepository);
    }
    match others {
        Some(others) => {
            let above = Vec::new(alloc);
            let components = append_parts(alloc, above, Spelling::PercentEncoded, others)?;
            Ok(Path::from_components(alloc, components)?)
        }
        None => Ok(Path::root(alloc)),
    }
}

/// Finds the index of the first `/` in the text, or `None` if it has none.
fn first_slash(text: &[u8]) -> Option<usize>
    ensures { result ≡ position is_slash text.now }
{
    text.iter().position(|byte| *byte == b'/')
}

/// Gives the text up to its first slash, and what comes after that slash.
fn split_first_part(text: &[u8]) -> (&[u8], Option<&[u8]>)
    ensures { MatchOption result.1 (slice_split is_slash text.now ≡ result.0.now ∷ [])
        (λ others. slice_split is_slash text.now ≡ result.0.now ∷ slice_split is_slash others.now) }
{
    match first_slash(text) {
        Some(end) => (&text[..end], Some(&text[end + 1..])),
        None => (text, None),
    }
}

/// Makes the root URL from what comes before the URL's path, then `/` and the name.
fn root_of_url(alloc: Global, url: &Url, name: &str) -> Result<ByteString, AllocError>
    ensures { IfOk result (λ root. root ≡ root_of_url name.now url.now) }
{
    let before_path = url.slice(Position::BeforeScheme, Position::BeforePath);
    let mut root = Vec::from_slice(alloc, before_path.as_bytes())?;
    root.push(b'/')?;
    root.extend_from_slice(name.as_bytes())?;
    Ok(ByteString::new(root))
}
