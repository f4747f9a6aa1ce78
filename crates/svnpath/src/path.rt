//! A path of the repository.
ghost use Rattle.std.specs.Prelude.{◌≡◌, ◌+◌, ◌<◌, ◌≤◌, ◌++◌, [], ◌∷◌, IfOk, IfErr, OnOk, OnErr, refl, length, take, drop, IsTrue, Some, ◌↔◌};
ghost use Rattle.std.specs.Cmp.{partial_order_from_agreeing_total, partial_equiv_from_equiv};
ghost use Rattle.std.specs.{Cmp.Lexicographic.{lists_equiv, lists_total, lists_ties, nat_list_eq_equiv, nat_list_cmp_total, texts_ties}, List.flat_map};
ghost use Rattle.svnpath.specs.Components.{beneath, AnswersPath, IsRightPath};
ghost use Rattle.svnpath.specs.Paths.{PathValue, components_in, is_at_or_under, same_path, path_cmp, path_cmp_total, path_ties};
ghost use Rattle.svnpath.specs.Texts.{parsed, joined, parent, path_text, components_of, without_first_slash, without_last_slash};
ghost use Rattle.svnpath.specs.Urls.{path_of_text, NamesPath};

use crate::component::{Spelling, append_parts};
use crate::fault::PathFault;
use crate::repository_url::{path_of_url, read_url};
use byte_string::ByteString;
use std::alloc::{AllocError, Global};
use std::cmp::Ordering;
use std::marker::Model;
use std::sync::Arc;

/// An absolute path without empty components, `.` or `..`, as `/a/b`: the list of its components, which its clones share.
///
/// `parse`, `join` and `from_url` make right paths only. `child` and `rebased` make a path of any
/// components and of any depth, as the trees above need them.
#[derive(Debug)]
pub struct Path {
    /// None for the root.
    shared: Option<Arc<Vec<ByteString>>>,
}

impl Drop for Path {
    fn drop(self) {
        let Path { shared: _ } = self;
    }
}

impl Model for Path {
    ghost Value = { PathValue };

    ghost view = { λ p. components_in p.shared };
}

impl Path {
    /// Makes the root, `/`.
    pub fn root(_alloc: Global) -> Self
        ensures { result ≡ [] }
    {
        Path { shared: None }
    }

    /// Makes the path of these components, which are not checked here.
    pub(crate) fn from_components(
        alloc: Global,
        components: Vec<ByteString>,
    ) -> Result<Self, AllocError>
        ensures { IfOk result (λ path. path ≡ components.items) }
    {
        if components.is_empty() {
            std::mem::drop(components);
            return Ok(Path { shared: None });
        }
        let mut components = components;
        components.shrink_to_fit();
        Ok(Path {
            shared: Some(Arc::new(alloc, components)?),
        })
    }

    /// Reads an absolute text: `/` is the root, and a slash stands before each component of the others.
    ///
    /// # Errors
    ///
    /// What refuses the first component from the left that is refused; `ForbiddenComponent` also for
    /// a text that does not begin with `/`; `NoMemory`.
    pub fn parse(alloc: Global, text: &[u8]) -> Result<Self, PathFault>
        ensures value { AnswersPath result (parsed text.now) }
        ensures right { IfOk result IsRightPath }
        ensures text { IfOk result (λ path. text.now ≡ path_text path) }
        ensures refuses { (path : PathValue) → IsRightPath path → text.now ≡ path_text path
            → IfErr result (λ fault. fault ≡ PathFault.NoMemory) }
    {
        match text.strip_prefix(b"/".as_slice()) {
            Some(rest) => Path::root(alloc).extended(alloc, rest),
            None => Err(PathFault::ForbiddenComponent),
        }
    }

    /// Makes the path that a text names relative to this one. One leading and one trailing `/` of the text are dropped,
    /// and the empty text names this path itself.
    ///
    /// # Errors
    ///
    /// What refuses the first component of the text, from the left, that is refused; `NoMemory`.
    pub fn join(&self, alloc: Global, relative: &[u8]) -> Result<Self, PathFault>
        ensures value { AnswersPath result (joined self.now relative.now) }
        ensures right { IsRightPath self.now → IfOk result IsRightPath }
    {
        self.extended(alloc, without_last_slash(without_first_slash(relative)))
    }

    /// Reads the path that a URL of the repository of this name names in it.
    ///
    /// The schemes are `svn` and `svn+ssh`. The URL's path is split at `/`, of which one at its end is
    /// dropped, and then percent-decoded: the first segment is the name, and the others are the
    /// components. A query and a fragment are passed over.
    ///
    /// # Errors
    ///
    /// `NotThisRepository` for a text that is no such URL, whatever its components; else as for `parse`.
    pub fn from_url(alloc: Global, url: &[u8], name: &str) -> Result<Self, PathFault>
        ensures value { AnswersPath result (path_of_text url.now name.now) }
        ensures names { IfOk result (NamesPath url.now name.now) }
        ensures refuses { (path : PathValue) → NamesPath url.now name.now path
            → IfErr result (λ fault. fault ≡ PathFault.NoMemory) }
    {
        path_of_url(alloc, &read_url(alloc, url)?, name)
    }

    /// Makes a path of this one and, beneath it, the components of a text without outer slashes.
    fn extended(&self, alloc: Global, text: &[u8]) -> Result<Self, PathFault>
        ensures value { AnswersPath result (beneath self.now (components_of text.now)) }
        ensures right { IsRightPath self.now → IfOk result IsRightPath }
    {
        if text.is_empty() {
            return Ok(self.clone()?);
        }
        let above = self.copied(alloc)?;
        let components = append_parts(alloc, above, Spelling::Plain, text)?;
        Ok(Path::from_components(alloc, components)?)
    }

    /// Copies the components of the path. It fails only if there is no memory.
    fn copied(&self, alloc: Global) -> Result<Vec<ByteString>, AllocError>
        ensures { IfOk result (λ components. components.items ≡ self.now) }
    {
        let mut components = Vec::new(alloc);
        append_all(&mut components, self.components())?;
        Ok(components)
    }

    /// Makes the path of an entry of this directory.
    pub fn child(&self, alloc: Global, name: ByteString) -> Result<Self, AllocError>
        ensures { IfOk result (λ p. p ≡ self.now ++ name ∷ []) }
    {
        let mut components = Vec::with_capacity(alloc, self.len().saturating_add(1))?;
        append_all(&mut components, self.components())?;
        components.push(name)?;
        Path::from_components(alloc, components)
    }

    /// Gives this path, and shares the components of the other if they are the same path.
    pub fn like(self, other: &Path) -> Result<Self, AllocError>
        ensures { IfOk result (λ path. path ≡ self) }
    {
        if self == *other {
            std::mem::drop(self);
            Ok(other.clone()?)
        } else {
            Ok(self)
        }
    }

    /// Gives the directory that this path is an entry of, or `None` for the root.
    pub fn parent(&self, alloc: Global) -> Result<Option<Self>, AllocError>
        ensures { IfOk result (λ above. above ≡ parent self.now) }
    {
        let Some((_, above)) = self.components().split_last() else {
            return Ok(None);
        };
        let mut components = Vec::with_capacity(alloc, above.len())?;
        append_all(&mut components, above)?;
        Ok(Some(Path::from_components(alloc, components)?))
    }

    /// Counts the components of the path.
    pub fn len(&self) -> usize
        ensures { result ≡ length self.now }
    {
        self.components().len()
    }

    /// Says whether this path is `/`, that is, has no components.
    pub fn is_root(&self) -> bool
        ensures { IsTrue result ↔ (self.now ≡ []) }
    {
        self.components().is_empty()
    }

    /// Gives the components, from the root down.
    pub fn components(&self) -> &[ByteString]
        ensures { result.now ≡ self.now }
    {
        match &self.shared {
            None => &[],
            Some(components) => components.as_slice(),
        }
    }

    /// Says whether this path is `above`, or lies under it.
    pub fn is_at_or_under(&self, above: &Path) -> bool
        ensures value { result ≡ is_at_or_under self.now above.now }
        ensures bound { IsTrue result → length above.now ≤ length self.now }
    {
        self.components().starts_with(above.components())
    }

    /// Gives this path with its first `from.len()` components replaced by `to`.
    pub fn rebased(&self, alloc: Global, from: &Path, to: &Path) -> Result<Self, AllocError>
        requires { length from.now ≤ length self.now }
        ensures { IfOk result (λ p. p ≡ to.now ++ drop (length from.now) self.now) }
    {
        let mut components = Vec::new(alloc);
        append_all(&mut components, to.components())?;
        append_all(&mut components, &self.components()[from.len()..])?;
        Path::from_components(alloc, components)
    }

    /// Appends the path's text, as `/a/b`; the root's is `/`. Without memory for it the buffer stays
    /// as it was.
    pub fn append_text(&self, out: &mut Vec<u8>) -> Result<(), AllocError>
        ensures ok { OnOk result (out.new.items ≡ out.old.items ++ path_text self.now) }
        ensures err { OnErr result (out.new.items ≡ out.old.items) }
    {
        if self.is_root() {
            out.push(b'/')?;
            return Ok(());
        }
        let before = out.len();
        let appended = append_texts(self.components(), out);
        if appended.is_err() {
            out.truncate(before);
        }
        appended
    }
}

/// Gives the text without one leading `/`, or all of it where it has none.
fn without_first_slash(text: &[u8]) -> &[u8]
    ensures { result.now ≡ without_first_slash text.now }
{
    text.strip_prefix(b"/".as_slice()).unwrap_or(text)
}

/// Gives the text without one trailing `/`, or all of it where it has none.
pub(crate) fn without_last_slash(text: &[u8]) -> &[u8]
    ensures { result.now ≡ without_last_slash text.now }
{
    text.strip_suffix(b"/".as_slice()).unwrap_or(text)
}

/// Appends copies of the components, in their order. An `Err` may leave some of them appended.
fn append_all(to: &mut Vec<ByteString>, items: &[ByteString]) -> Result<(), AllocError>
    ensures { IfOk result (λ _. to.new.items ≡ to.old.items ++ items.now) }
{
    for item in items {
        to.push(item.clone()?)?;
    }
    Ok(())
}

/// Appends a slash and the component, for each of them.
fn append_texts(components: &[ByteString], out: &mut Vec<u8>) -> Result<(), AllocError>
    ensures ok { OnOk result (out.new.items ≡ out.old.items
        ++ flat_map (λ component. 47 ∷ component) components.now) }
    ensures err { OnErr result (take (length out.old.items) out.new.items ≡ out.old.items) }
{
    for component in components {
        out.push(b'/')?;
        out.extend_from_slice(component.as_slice())?;
    }
    Ok(())
}

impl Clone for Path {
    ghost is_clone = { λ path copy. copy ≡ path };

    fn clone(&self) -> Result<Self, AllocError> {
        match &self.shared {
            None => Ok(Path { shared: None }),
            Some(components) => Ok(Path {
                shared: Some(Arc::try_clone(components)?),
            }),
        }
    }
}

impl PartialEq for Path {
    ghost eq = { same_path };

    ghost laws = { partial_equiv_from_equiv (lists_equiv nat_list_eq_equiv) };

    fn eq(&self, other: &Self) -> bool {
        self.components() == other.components()
    }
}

impl Eq for Path {
    ghost laws = { lists_equiv nat_list_eq_equiv };
}

impl Ord for Path {
    ghost cmp = { path_cmp };

    ghost total = { path_cmp_total };

    ghost matches_partial_cmp = { λ x y. refl };

    ghost matches_eq = { path_ties };

    fn cmp(&self, other: &Self) -> Ordering {
        self.components().cmp(other.components())
    }
}

impl PartialOrd for Path {
    ghost partial_cmp = { λ x y. Some (path_cmp x y) };

    ghost laws = { partial_order_from_agreeing_total path_cmp path_cmp_total (λ x y. refl) path_ties };

    fn partial_cmp(&self, other: &Self) -> Option<Ordering> {
        Some(self.cmp(other))
    }
}
