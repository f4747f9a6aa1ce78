//! Laws of the files that the writer lays out: each is read again as what was laid out, as the
//! block of nodes that was laid out, and is judged to be right. The functions do nothing: their
//! contracts are the laws.
#![tactic(auto)]

mod again;
mod blocks;
mod judging;

pub use again::{
    changes_can_be_written, kept_lines_name_earlier_revisions, node_revisions_are_where_they_say,
    node_revisions_can_be_written, revision_0_is_right, the_root_leads_to_each,
    what_is_laid_out_is_read_again, what_is_laid_out_leaves_right_tables,
    what_is_read_leaves_earlier_lines, what_is_tabled_can_be_written,
};
pub use blocks::{
    changes_are_read, dumps_say_what_they_are_of, paths_of_blocks_are_right, properties_are_read,
    the_block_of_revision_0_is_right, what_is_laid_out_can_be_read, what_is_laid_out_is_tabled,
};
pub use judging::{a_revision_without_changes_copies_nothing, what_is_laid_out_is_judged_right};
