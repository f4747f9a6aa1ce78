//! By what a session is served.
ghost use Rattle.std.specs.Prelude.{◌≡◌, ℕ, List, IfOk, IsTrue, None, Some};
ghost use Rattle.session_pool.specs.{Terms.{AreTerms, IsHandedOver}, declared.terms.Terms.TheVariants.{OfAccount}};

use crate::reading::Reading;
use byte_string::ByteString;
use machine::{Options, is_repository_name};
use std::alloc::{AllocError, Global};
use std::sync::Arc;

/// By what a session is served that begins now.
pub enum Terms {
    /// By the options of the start.
    OfStart,
    /// By the options of a later reading of the file of users.
    ReadAgain(Arc<Reading>),
    /// By options that name the account that its client came as through a tunnel, and no users.
    OfAccount(Options),
}

impl Drop for Terms {
    fn drop(self) {
        match self {
            Terms::OfStart => {}
            Terms::ReadAgain(_reading) => {}
            Terms::OfAccount(_options) => {}
        }
    }
}

/// Says whether an account is named that the client came as.
fn has_account(options: &Options) -> bool
    ensures { IsTrue result → (name : List ℕ) × (options.now.account ≡ Some name) }
{
    match options.account() {
        Some(_) => true,
        None => false,
    }
}

/// Says whether there are no users who may log in.
fn has_no_users(options: &Options) -> bool
    ensures { IsTrue result → options.now.users ≡ None }
{
    options.users().is_none()
}

/// Says whether options are those of the start but for an account in the place of the users.
#[tactic(auto, using(crate::proofs::InTurn::is_handed_over))]
fn is_handed_over(start: &Options, options: &Options) -> bool
    ensures { IsTrue result → IsHandedOver start.now options.now }
{
    options.name() == start.name()
        && has_account(options)
        && has_no_users(options)
        && options.has_revprops() == start.has_revprops()
}

impl Terms {
    /// Makes the terms of a client that came as the account of this name. It also fails where the start has a name that no
    /// repository may have.
    pub(crate) fn of_account(
        alloc: Global,
        start: &Options,
        account: &[u8],
    ) -> Result<Terms, AllocError>
        ensures { IfOk result (λ terms. terms
            ≡ OfAccount (record start.now { account = Some account.now; users = None })) }
    {
        if !is_repository_name(start.name()) {
            return Err(AllocError);
        }
        let account = ByteString::from_slice(alloc, account)?;
        let options = Options::new(alloc, start.name())?.with_account(account);
        Ok(Terms::OfAccount(if start.has_revprops() {
            options.with_revprops()
        } else {
            options
        }))
    }

    /// Gives the options that a session is served by, where these are those of the start.
    pub(crate) fn options<'o>(&'o self, start: &'o Options) -> &'o Options
        ensures { AreTerms start.now result.now }
    {
        match self {
            Terms::ReadAgain(reading) if reading.as_ref().is_of(start) => reading
                .as_ref()
                .options(),
            Terms::OfAccount(options) if is_handed_over(start, options) => options,
            _ => start,
        }
    }
}
