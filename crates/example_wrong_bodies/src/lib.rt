//! Functions over sets, for which `must-fail/` has wrong bodies that the checker rejects. They are in a small crate of
//! their own, since the gate checks a crate once more before it tries the wrong bodies for it.
#![tactic(auto, using(enumset::specs::Sets::set_laws))]

pub mod access;
pub mod alarms;
pub mod messages;
pub mod partitions;
pub mod permissions;
