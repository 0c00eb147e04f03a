use crate::call_refusal::CallRefusal;
use range_calls::CallErr;

/// Why a call on a map was not done.
pub type MapErr = CallErr<CallRefusal>;
