//! What holds of every repository, by its definitions.
#![tactic(auto)]

mod laws;

pub use laws::{
    accepted_commits_meet_well, beginnings_are_marked, beginnings_are_trees,
    changes_from_one_value_exclude_each_other, changes_of_locks_keep_revisions,
    changes_of_properties_keep_revisions, commits_keep_both_sides, edits_keep_marks,
    edits_keep_trees, marks_name_one_thing, merges_are_trees, merges_keep_both_sides,
    merges_keep_marks, merges_with_the_base, new_revisions_keep_transactions, opening_is_a_tree,
    opening_is_marked, same_entries_make_a_tree, transactions_begin_marked,
    transactions_stay_marked,
};
