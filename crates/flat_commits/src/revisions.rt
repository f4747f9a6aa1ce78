//! What is seen of what a repository holds, and what is held after a change.
ghost use Rattle.std.specs.{Prelude.{◌≡◌, ◌<◌, ◌∷◌, [], ◌++◌, ◌-◌, length, IfOk, slice_get, slice_set, option_copied}, FinMap.empty};
ghost use Rattle.repo_api.specs.{Histories.changes_in, Kinds.or_empty, Opening.{new_repository, opening_tree}};
ghost use Rattle.repo_api.specs.{RevisionProperties.{property_changed, with_changed_property}, States.tree_at};
ghost use Rattle.flat_commits.specs.Contents.{fixed_of, HasRevision, values, revisions_of, properties_of, flat_state};

use crate::flat_content::{FlatContent, FlatRevision};
use byte_string::ByteString;
use flat_trees::FlatTree;
use repo_api::{Change, Properties};
use revision_data::{ChangeList, changed_property, opening_properties};
use std::alloc::{AllocError, Global};
use std::sync::Arc;
use svnpath::Path;

impl FlatRevision {
    /// Makes revision 0: the root alone, and no changes.
    fn opening(alloc: Global) -> Result<Self, AllocError>
        ensures tree { IfOk result (λ r. r.tree ≡ opening_tree) }
        ensures changes { IfOk result (λ r. r.changes ≡ empty) }
    {
        Ok(FlatRevision {
            tree: FlatTree::opening(alloc)?,
            changes: ChangeList::new(alloc),
        })
    }
}

impl FlatContent {
    /// Makes a content without revisions.
    fn empty(alloc: Global, uuid: u128) -> Self
        ensures revisions { revisions_of result ≡ [] }
        ensures properties { properties_of result ≡ [] }
        ensures uuid { result.uuid ≡ uuid }
    {
        FlatContent {
            uuid,
            revisions: Vec::new(alloc),
            properties: Vec::new(alloc),
            nothing: FlatTree::new(alloc),
        }
    }

    /// Makes a content of revision 0 alone, with its date.
    pub fn opened(alloc: Global, uuid: u128, date: ByteString) -> Result<Self, AllocError>
        ensures { IfOk result (λ c. flat_state c ≡ new_repository uuid date) }
    {
        let properties = opening_properties(alloc, date)?;
        FlatContent::empty(alloc, uuid).with_revision(
            alloc,
            FlatRevision::opening(alloc)?,
            properties,
        )
    }

    /// Says how many revisions there are.
    pub fn count(&self) -> u64
        ensures { result ≡ length (revisions_of self.now) }
    {
        self.revisions.len() as u64
    }

    /// Gives the number of the youngest revision.
    pub fn youngest(&self) -> u64
        ensures { result ≡ length (revisions_of self.now) - 1 }
    {
        self.count().saturating_sub(1)
    }

    /// Gives the tree of the revision, one without entries for a number that no revision has.
    pub fn tree(&self, revision: u64) -> &FlatTree
        ensures { result.now ≡ tree_at (flat_state self.now) revision }
    {
        match at(&self.revisions, revision) {
            Some(revision) => &revision.tree,
            None => &self.nothing,
        }
    }

    /// Gives the changes of the revision in the order of their paths, none for a number that no revision has.
    pub fn changes(&self, revision: u64) -> &[(Path, Change)]
        ensures { result.now ≡ changes_in (slice_get (revisions_of self.now) revision) }
    {
        match at(&self.revisions, revision) {
            Some(revision) => revision.changes.as_slice(),
            None => &[],
        }
    }

    /// Gives the properties of the revision, none for a number that no revision has.
    pub fn properties(&self, revision: u64) -> Option<&Properties>
        ensures { option_copied result ≡ slice_get (properties_of self.now) revision }
    {
        at(&self.properties, revision)
    }

    /// Makes the same with a property of a revision changed.
    pub fn with_property(
        &self,
        alloc: Global,
        revision: u64,
        name: ByteString,
        value: Option<ByteString>,
    ) -> Result<Self, AllocError>
        ensures { IfOk result (λ c. flat_state c
            ≡ with_changed_property (flat_state self.now) revision name value) }
    {
        Ok(FlatContent {
            uuid: self.uuid,
            revisions: shared(alloc, &self.revisions)?,
            properties: with_property(alloc, &self.properties, revision, name, value)?,
            nothing: FlatTree::new(alloc),
        })
    }

    /// Makes the same with one revision more.
    pub(crate) fn with_revision(
        &self,
        alloc: Global,
        revision: FlatRevision,
        properties: Properties,
    ) -> Result<Self, AllocError>
        ensures { IfOk result (λ c. HasRevision self.now c (fixed_of revision) properties) }
    {
        Ok(FlatContent {
            uuid: self.uuid,
            revisions: with_one_more(alloc, &self.revisions, revision)?,
            properties: with_one_more(alloc, &self.properties, properties)?,
            nothing: FlatTree::new(alloc),
        })
    }
}

/// Makes the lists of properties, of which this one has a property changed, if it exists.
fn with_property(
    alloc: Global,
    lists: &[Arc<Properties>],
    number: u64,
    name: ByteString,
    value: Option<ByteString>,
) -> Result<Vec<Arc<Properties>>, AllocError>
    ensures { IfOk result (λ v. values v.items
        ≡ slice_set (values lists.now) number (property_changed name value (or_empty (slice_get (values lists.now) number)))) }
{
    let place = number as usize;
    if place >= lists.len() {
        std::mem::drop((name, value));
        return shared(alloc, lists);
    }
    let list = changed_property(&lists[place], name, value)?;
    let list = Arc::new(alloc, list)?;
    let mut lists = shared(alloc, lists)?;
    lists[place] = list;
    Ok(lists)
}

/// Gives the value at the number, if there is one.
fn at<T>(items: &[Arc<T>], number: u64) -> Option<&T>
    ensures { option_copied result ≡ slice_get (values items.now) number }
{
    match items.get(number as usize) {
        Some(value) => Some(value),
        None => None,
    }
}

/// Makes a list of the values, which are shared, and one more.
fn with_one_more<T: Drop>(
    alloc: Global,
    items: &[Arc<T>],
    more: T,
) -> Result<Vec<Arc<T>>, AllocError>
    ensures { IfOk result (λ v. values v.items ≡ values items.now ++ more ∷ []) }
{
    let mut list = shared(alloc, items)?;
    list.push(Arc::new(alloc, more)?)?;
    Ok(list)
}

/// Makes a list of the same values, shared.
fn shared<T: Drop>(alloc: Global, items: &[Arc<T>]) -> Result<Vec<Arc<T>>, AllocError>
    ensures { IfOk result (λ v. values v.items ≡ values items.now) }
{
    let mut list = Vec::new(alloc);
    for item in items {
        list.push(Arc::try_clone(item)?)?;
    }
    Ok(list)
}
