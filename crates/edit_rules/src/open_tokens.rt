//! What is open in an edit, by its tokens.
ghost use Rattle.std.specs.Prelude.{◌≡◌, ◌++◌, ◌∷◌, [], false, IfOk, OnOk, OnErr, Some, option_copied};
ghost use Rattle.svnpath.specs.Paths.{PathValue, same_path};
ghost use Rattle.revision_data.specs.Found.{found};
ghost use Rattle.edit_rules.specs.Tokens.{HavePlaces, opened_under, with_token, without_token};

use crate::opened::Opened;
use byte_string::ByteString;
use revision_data::{put, take_out};
use std::alloc::{AllocError, Global};
use std::collections::BTreeMap;
use std::marker::Model;
use svnpath::Path;

/// What is open, by its tokens.
///
/// A place is the path of what is open, and its token as one name more. So what is open at or under a path has its
/// places side by side, and is found by them.
pub struct OpenTokens {
    pub(crate) alloc: Global,
    pub(crate) opened: BTreeMap<ByteString, Opened>,
    pub(crate) places: BTreeMap<Path, ()>,
}

impl Drop for OpenTokens {
    fn drop(self) {
        let OpenTokens {
            alloc: _,
            opened: _,
            places: _,
        } = self;
    }
}

impl Model for OpenTokens {
    ghost use Rattle.edit_rules.specs.Tokens.{HavePlaces, Tokens};

    ghost Value = { Tokens };

    ghost view = { λ t. t.opened.entries };

    ghost invariant = { λ t. HavePlaces t.places.entries t.opened.entries };
}

impl OpenTokens {
    /// Has nothing open.
    pub fn new(alloc: Global) -> Self
        ensures { result ≡ [] }
    {
        OpenTokens {
            alloc,
            opened: BTreeMap::new(alloc),
            places: BTreeMap::new(alloc),
        }
    }

    /// Gives what is open under the token.
    pub fn get(&self, token: &ByteString) -> Option<&Opened>
        ensures { option_copied result ≡ opened_under self.now token.now }
    {
        self.opened.get(token)
    }

    /// Opens an entry under the token, over what was open there.
    pub fn insert(&mut self, token: ByteString, opened: Opened) -> Result<(), AllocError>
        ensures ok { OnOk result (self.new ≡ with_token self.old token opened) }
        ensures err { OnErr result (self.new ≡ self.old) }
    {
        open_in(
            self.alloc,
            &mut self.opened,
            &mut self.places,
            token,
            opened,
        )
    }

    /// Closes what is open under the token.
    pub fn remove(&mut self, token: &ByteString)
        ensures { self.new ≡ without_token self.old token.now }
    {
        close_in(self.alloc, &mut self.opened, &mut self.places, token);
    }
}

/// Makes the place of what is open under the token at the path.
fn place_of(alloc: Global, token: &ByteString, path: &Path) -> Result<Path, AllocError>
    ensures { IfOk result (λ place. place ≡ path.now ++ token.now ∷ []) }
{
    path.child(alloc, token.clone()?)
}

/// Opens an entry under the token, and puts its place.
fn open_in(
    alloc: Global,
    opened: &mut BTreeMap<ByteString, Opened>,
    places: &mut BTreeMap<Path, ()>,
    token: ByteString,
    entry: Opened,
) -> Result<(), AllocError>
    requires { HavePlaces places.old.entries opened.old.entries }
    ensures ok { OnOk result (opened.new.entries ≡ with_token opened.old.entries token entry) }
    ensures err { OnErr result (opened.new.entries ≡ opened.old.entries) }
    ensures placed { HavePlaces places.new.entries opened.new.entries }
{
    let place = place_of(alloc, &token, entry.path())?;
    put(places, place, ())?;
    opened.insert(token, entry)?;
    Ok(())
}

/// Closes what is open under the token, and takes its place out.
fn close_in(
    alloc: Global,
    opened: &mut BTreeMap<ByteString, Opened>,
    places: &mut BTreeMap<Path, ()>,
    token: &ByteString,
)
    requires { HavePlaces places.old.entries opened.old.entries }
    ensures closed { opened.new.entries ≡ without_token opened.old.entries token.now }
    ensures placed { HavePlaces places.new.entries opened.new.entries }
{
    if let Some(closed) = opened.remove(token) {
        forget_place(alloc, places, token, closed.path());
    }
}

/// Takes out the place of what was open under the token at the path. Where memory runs out for its name, it stays, and
/// is found in vain.
fn forget_place(alloc: Global, places: &mut BTreeMap<Path, ()>, token: &ByteString, path: &Path)
    ensures { (q : PathValue) → same_path (path.now ++ token.now ∷ []) q ≡ false
        → found places.new.entries q ≡ found places.old.entries q }
{
    if let Ok(place) = place_of(alloc, token, path) {
        take_out(places, &place);
    }
}
