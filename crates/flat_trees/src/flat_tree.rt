//! A tree as one ordered map.
ghost use Rattle.std.specs.{Prelude.{◌≡◌, IfOk, OnOk, map, option_copied}, FinMap.{get, empty, keys}, List.list_any, Map.Iter.deref};
ghost use Rattle.repo_api.specs.{Edits.{added, begun, copied, deleted, revised, with_text}, Kinds.has_deeper};
ghost use Rattle.repo_api.specs.{MergedMaps.{has_conflict, IsConflict, merged_map}, Opening.opening_tree, Readings.names_in, States.tree_of};
ghost use Rattle.revision_data.specs.Found.{found};
ghost use Rattle.flat_trees.specs.{EntryChanges.with_change, Changing.{Applies, AreOf, IsMapOf}, Merging.{conflict_at, Finds, merged_at, put_over}};

use crate::copies::{cut_subtree, put_copies};
use crate::entries::{is_deeper, new_entry, opening_root, put_properties, put_text};
use crate::names::names_beneath;
use crate::path_map::put_optional;
use crate::touching::touch_above;
use byte_string::ByteString;
use flat_entries::{is_in_conflict, merged_entry};
use repo_api::{Content, Entry, FileText, Properties};
use revision_data::{changed_property, put};
use std::alloc::{AllocError, Global};
use std::collections::BTreeMap;
use std::marker::Model;
use std::mem::drop;
use svnpath::Path;

/// The entries of a tree, in the order of their paths.
pub struct FlatTree {
    entries: BTreeMap<Path, Entry>,
}

impl Drop for FlatTree {
    fn drop(self) {
        let FlatTree { entries: _ } = self;
    }
}

impl Model for FlatTree {
    ghost use Rattle.std.specs.{Coded.codes, FinMap.{from_entries, code as map_code}};
    ghost use Rattle.repo_api.specs.States.{TreeMap};

    ghost Value = { TreeMap };

    ghost coded = { Prim.hlevel (map_code, codes) };

    ghost view = { λ t. from_entries t.entries.entries };
}

impl FlatTree {
    /// Makes a tree without entries.
    pub fn new(alloc: Global) -> Self
        ensures { result ≡ empty }
    {
        FlatTree {
            entries: BTreeMap::new(alloc),
        }
    }

    /// Makes the tree of revision 0: the root alone.
    pub fn opening(alloc: Global) -> Result<Self, AllocError>
        ensures { IfOk result (λ t. t ≡ opening_tree) }
    {
        let mut entries = BTreeMap::new(alloc);
        entries.insert(Path::root(alloc), opening_root(alloc))?;
        Ok(FlatTree { entries })
    }

    /// Finds the entry at the path.
    #[tactic(auto, using(repo_api::specs::StateLaws::get_path))]
    pub fn get(&self, path: &Path) -> Option<&Entry>
        ensures { option_copied result ≡ get self.now path.now }
    {
        self.entries.get(path)
    }

    /// Makes a copy with the root's `last` open: a transaction that begins from this tree.
    pub fn begun(&self, alloc: Global) -> Result<Self, AllocError>
        ensures { IfOk result (IsMapOf (begun (tree_of self.now))) }
    {
        let mut entries = self.entries.clone()?;
        touch_above(&mut entries, &Path::root(alloc));
        Ok(FlatTree { entries })
    }

    /// Puts a new entry with this content at the path.
    #[tactic(auto, using(repo_api::specs::StateLaws::get_path))]
    pub fn add(&mut self, alloc: Global, path: &Path, content: Content) -> Result<(), AllocError>
        ensures { Applies result self.old self.new (λ t. added t path.now content) }
    {
        put(&mut self.entries, path.clone()?, new_entry(alloc, content))?;
        touch_above(&mut self.entries, path);
        Ok(())
    }

    /// Sets the property of this name at the path to the value, or takes it out where there is no value.
    #[tactic(auto, using(repo_api::specs::StateLaws::get_path))]
    pub fn change_property(
        &mut self,
        alloc: Global,
        path: &Path,
        name: ByteString,
        value: Option<ByteString>,
    ) -> Result<(), AllocError>
        ensures { Applies result self.old self.new
            (λ t. revised t path.now (with_change name value)) }
    {
        let properties = match self.entries.get(path) {
            None => {
                drop((name, value));
                Properties::new(alloc)
            }
            Some(entry) => changed_property(&entry.properties, name, value)?,
        };
        put_properties(&mut self.entries, path, properties);
        touch_above(&mut self.entries, path);
        Ok(())
    }

    /// Makes this the text of the file at the path.
    #[tactic(auto, using(repo_api::specs::StateLaws::get_path))]
    pub fn set_text(&mut self, path: &Path, text: &FileText) -> Result<(), AllocError>
        ensures { Applies result self.old self.new
            (λ t. revised t path.now (with_text text.now)) }
    {
        let text = text.clone()?;
        put_text(&mut self.entries, path, text);
        touch_above(&mut self.entries, path);
        Ok(())
    }

    /// Takes out what is at or under the path.
    #[tactic(auto, using(repo_api::specs::StateLaws::get_path))]
    pub fn delete(&mut self, path: &Path)
        ensures { IsMapOf (deleted (tree_of self.old) path.now) self.new }
    {
        cut_subtree(&mut self.entries, path);
    }

    /// Says whether something exists more than so many names beneath the path.
    pub fn has_deeper(&self, path: &Path, names: usize) -> bool
        ensures { result ≡ has_deeper self.now path.now names }
    {
        self.entries.keys().any(|key| is_deeper(key, path, names))
    }

    /// Gives the names of what is straight beneath the path, by their bytes.
    pub fn names(&self, alloc: Global, path: &Path) -> Result<Vec<&ByteString>, AllocError>
        ensures { IfOk result (λ names. map deref names.items ≡ names_in self.now path.now) }
    {
        match names_beneath(alloc, &self.entries, path) {
            Ok(names) => Ok(names),
            Err(error) => Err(error),
        }
    }

    /// Makes this tree as it is after a copy of what is at `from` of the source, and under it, to `to`.
    pub fn with_copy(
        &self,
        alloc: Global,
        source: &FlatTree,
        from: &Path,
        to: &Path,
    ) -> Result<FlatTree, AllocError>
        ensures { IfOk result (IsMapOf
            (copied (tree_of source.now) from.now (tree_of self.now) to.now)) }
    {
        let mut entries = self.entries.clone()?;
        cut_subtree(&mut entries, to);
        put_copies(alloc, &mut entries, &source.entries, from, to)?;
        Ok(FlatTree { entries })
    }

    /// Says whether a path of the base or of this tree, the transaction's, is in conflict.
    pub fn has_conflict(&self, base: &FlatTree, youngest: &FlatTree) -> bool
        ensures { result ≡ has_conflict base.now self.now youngest.now }
    {
        self.conflicts_among(base, base, youngest) || self.conflicts_among(self, base, youngest)
    }

    /// Says whether one of the paths is in conflict.
    fn conflicts_among(&self, paths: &FlatTree, base: &FlatTree, youngest: &FlatTree) -> bool
        ensures { result ≡ list_any (conflict_at base.now self.now youngest.now) (keys paths.now) }
    {
        paths
            .entries
            .keys()
            .any(|path| self.conflicts_at(path, base, youngest))
    }

    /// Finds a path of the base or of this tree, the transaction's, that is in conflict, if there is one.
    pub fn conflict(&self, base: &FlatTree, youngest: &FlatTree) -> Result<Option<Path>, AllocError>
        ensures { IfOk result (IsConflict base.now self.now youngest.now) }
    {
        let of_base = self.conflict_among(base, base, youngest)?;
        match of_base {
            Some(path) => Ok(Some(path)),
            None => self.conflict_among(self, base, youngest),
        }
    }

    /// Finds one of the paths that is in conflict, if there is one.
    fn conflict_among(
        &self,
        paths: &FlatTree,
        base: &FlatTree,
        youngest: &FlatTree,
    ) -> Result<Option<Path>, AllocError>
        ensures { IfOk result (Finds (conflict_at base.now self.now youngest.now)
            (keys paths.now)) }
    {
        copy_of(self.found_among(paths, base, youngest))
    }

    /// Finds one of the paths that is in conflict, if there is one, where it is.
    fn found_among<'a>(
        &self,
        paths: &'a FlatTree,
        base: &FlatTree,
        youngest: &FlatTree,
    ) -> Option<&'a Path>
        ensures { Finds (conflict_at base.now self.now youngest.now) (keys paths.now)
            (option_copied result) }
    {
        paths
            .entries
            .keys()
            .find(|path| self.conflicts_at(path, base, youngest))
    }

    /// Says whether the path is in conflict.
    fn conflicts_at(&self, path: &Path, base: &FlatTree, youngest: &FlatTree) -> bool
        ensures { result ≡ conflict_at base.now self.now youngest.now path.now }
    {
        is_in_conflict(base.get(path), self.get(path), youngest.get(path))
    }

    /// Makes the merge of this tree, the transaction's, with the others, as revision of that number.
    pub fn merged(
        &self,
        alloc: Global,
        revision: u32,
        base: &FlatTree,
        youngest: &FlatTree,
    ) -> Result<FlatTree, AllocError>
        ensures { IfOk result (λ t. t ≡ merged_map revision base.now self.now youngest.now) }
    {
        let mut entries = BTreeMap::new(alloc);
        self.put_merged(&mut entries, self, revision, base, youngest)?;
        self.put_merged(&mut entries, youngest, revision, base, youngest)?;
        Ok(FlatTree { entries })
    }

    /// Puts what the merge has at each of the paths.
    fn put_merged(
        &self,
        entries: &mut BTreeMap<Path, Entry>,
        paths: &FlatTree,
        revision: u32,
        base: &FlatTree,
        youngest: &FlatTree,
    ) -> Result<(), AllocError>
        ensures { OnOk result (AreOf (put_over paths.now
            (merged_at revision base.now self.now youngest.now) (found entries.old.entries))
            entries.new.entries) }
    {
        for path in paths.entries.keys() {
            let entry = self.merged_at(path, revision, base, youngest)?;
            put_optional(entries, path, entry)?;
        }
        Ok(())
    }

    /// Makes what the merge has at the path.
    fn merged_at(
        &self,
        path: &Path,
        revision: u32,
        base: &FlatTree,
        youngest: &FlatTree,
    ) -> Result<Option<Entry>, AllocError>
        ensures { IfOk result (λ o. o
            ≡ merged_at revision base.now self.now youngest.now path.now) }
    {
        merged_entry(
            revision,
            path,
            base.get(path),
            self.get(path),
            youngest.get(path),
        )
    }
}

/// Copies a path, if there is one.
fn copy_of(path: Option<&Path>) -> Result<Option<Path>, AllocError>
    ensures { IfOk result (λ copy. copy ≡ option_copied path.entry) }
{
    match path {
        None => Ok(None),
        Some(path) => Ok(Some(path.clone()?)),
    }
}
