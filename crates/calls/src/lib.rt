// Lists of calls on a session, and the law that every list keeps.

#![tactic(auto)]

pub mod calls;
pub mod combine;
pub mod play;
pub mod single;
pub mod tape;
