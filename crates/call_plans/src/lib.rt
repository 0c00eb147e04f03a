//! What a call on a range of objects stands for, whatever stands in the range: a tree, or a hash file.
//!
//! As code the library is empty. The definitions are the free objects of a range (`Free`), the plan of a call, which is
//! commands and why it is refused at their end (`Plan`), and what a plan does to a state and to the map that the range
//! stands for, which depends on the range's own objects alone (`Laws`). What holds of the steps of a plan holds of all of it
//! (`PlanLaws`). It depends on oper_core.
#![tactic(auto)]
