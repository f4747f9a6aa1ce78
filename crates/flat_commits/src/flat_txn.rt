//! What an open transaction has.
use crate::flat_content::FlatContent;
use flat_trees::FlatTree;
use revision_data::TxnChanges;
use std::sync::Arc;

/// An open transaction.
#[derive(Drop)]
pub struct FlatTxn {
    pub shown: Arc<FlatContent>,
    pub base: u64,
    pub tree: FlatTree,
    pub changes: TxnChanges,
}
