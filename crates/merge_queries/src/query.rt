//! What a query asks, path by path.
ghost use Rattle.std.specs.{Prelude.{◌≡◌, ◌++◌, map, IfOk, OnOk}, List.flat_map};
ghost use Rattle.repo_api.specs.States.{tree_at};
ghost use Rattle.merge_queries.specs.Questions.{question_beneath, questions, questions_for};

use crate::beneath::descendants;
use crate::inheritance::Inheritance;
use repo_api::Repository;
use std::alloc::{AllocError, Global};
use std::collections::BTreeSet;
use svnpath::Path;

/// Which merge information of paths of a revision is asked for.
#[derive(Clone, Copy, Debug, PartialEq, Eq)]
pub struct MergeQuery {
    pub revision: u64,
    pub inheritance: Inheritance,
    pub includes_descendants: bool,
}

/// A path, and from where its merge information is wanted.
#[derive(Debug)]
pub struct Question {
    pub path: Path,
    pub inheritance: Inheritance,
}

impl Drop for Question {
    fn drop(self) {
        let Question {
            path: _,
            inheritance: _,
        } = self;
    }
}

/// Asks paths for what they have themselves.
fn ask_own(found: BTreeSet<Path>, asked: &mut Vec<Question>) -> Result<(), AllocError>
    ensures { OnOk result (asked.new.items ≡ asked.old.items ++ map question_beneath found.keys) }
{
    for path in found {
        asked.push(Question {
            path,
            inheritance: Inheritance::Explicit,
        })?;
    }
    Ok(())
}

/// Asks a path, and what is beneath it if that is included.
fn ask_for<R: Repository>(
    alloc: Global,
    repository: &R,
    query: MergeQuery,
    path: &Path,
    asked: &mut Vec<Question>,
) -> Result<(), AllocError>
    ensures { OnOk result (asked.new.items ≡ asked.old.items ++ questions_for
        (tree_at (R.content repository.now) query.revision) query path.now) }
{
    asked.push(Question {
        path: path.clone()?,
        inheritance: query.inheritance,
    })?;
    if !query.includes_descendants {
        return Ok(());
    }
    let found = descendants(alloc, repository, query.revision, path)?;
    ask_own(found, asked)
}

/// Finds what a query asks: each path in turn, and after it, if that is included, what is beneath it and has the property.
pub fn questions<R: Repository>(
    alloc: Global,
    repository: &R,
    query: MergeQuery,
    paths: &[Path],
) -> Result<Vec<Question>, AllocError>
    ensures { IfOk result (λ asked. asked.items
        ≡ questions (tree_at (R.content repository.now) query.revision) query paths.now) }
{
    let mut asked = Vec::new(alloc);
    for path in paths {
        ask_for(alloc, repository, query, path, &mut asked)?;
    }
    Ok(asked)
}
