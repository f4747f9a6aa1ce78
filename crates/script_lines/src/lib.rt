//! The lines of a script of calls to a hub, and the lines that say what is answered.
//!
//!     # any text                             nothing
//!     hub NAME UUID MOMENT                   a new hub, in place of the one before, over an empty repository
//!     revprops                               clients of it may change the properties of revisions
//!     account NAME                           its clients came as this account
//!     users                                  a users file for it, so far without users
//!     user NAME PASSWORD                     one more user in its users file, the password in HEX
//!     memory                                 its repository is in files, in memory
//!     folder PATH                            its repository is in files, in this folder: made with the hub's UUID and
//!                                            moment where there is none, and else opened
//!     format 2|3                             the format of its repository, where that is new: 3 without this line
//!     fuse K old|new|torn                    the store that is opened next fails once, at its Kth call that writes
//!     reopen                                 the hub is dropped, and its repository opened again: `reopen`
//!     file NAME                              what a file of its repository has: `file NAME HEX`
//!     connect                                a new session: `connect ID HEX`, HEX the greeting
//!     feed ID MOMENT TOKEN NONCE HEX         a piece for a session: `feed ID HEX`, HEX what is written back
//!     open ID                                `open ID true` or `open ID false`
//!     disconnect ID                          the client goes: `disconnect ID`
//!
//! Numbers are decimal, and HEX has lower-case digits, or is `-` for no bytes. A call that fails is answered
//! by its fault in place of HEX: `H1` for a session that isn't open, `H2` where memory ran out, `H3` for a hub
//! that has halted, `H4` for one that is full.
//!
//! What a hub is made with, `revprops`, `account`, the place and the format of its repository and the lines of users, stands after
//! the hub's line and before its first call, at which the hub is made. A users file of all users is read then: the
//! line `[users]`, and `NAME = PASSWORD` for each user, in order; so there is one also without a
//! `users` line where a user is named. A hub without such lines has no users file. A users file
//! that is not read, a line in another place and any other line are faults.
//!
//! A repository without a place is in memory and has no files: `reopen` and `file` are for those that have. NAME
//! is as in the folder `db`: `format`, `fs-type`, `uuid`, `current`, `locks.dump`, `revs/N`, `revprops/N`, and in shards
//! `revs/S/N`, `revprops/S/N`; where there is no such file, `none` stands for HEX. `fuse` stands after the hub's line: a store is opened when the hub is made and by
//! each `reopen`, and what is written where a folder is made does not count. A call that fails leaves the old bytes of
//! its file or the new ones; `torn`, half of those of a file that is written anew. Where a repository is not opened, `reopen`
//! is answered by the fault, `X1` to `X6` or `O1` to `O5` after it, and there is no hub any more. Before the first
//! call `reopen` makes the hub.
#![tactic(auto)]

mod answer;
mod fault;
mod line;
mod words;

pub use answer::{answer_line, file_line, reopening_line};
pub use fault::LineFault;
pub use line::{Failing, Line, NamedFile, NewFormat, NewHub, NewUser, Piece, Place};
