use logical_btree::TreeRefusal;
use range_calls::CallErr;

/// Why a call on a tree was not done.
pub type TreeErr = CallErr<TreeRefusal>;
