//! Where the paths of a resolved body lead: whether its end is reached without a result, what an initialiser has
//! brought about where, which jump has nothing to leave, and which `switch` leaves a value out.
//!
//! `specs/Way` and `specs/Path` say what a path is, `specs/Trees` which paths a body has, `specs/Act` what its steps have
//! to do with what an initialiser owes, and `specs/Faults` what is at fault. `specs/Flows` computes it, and the laws say
//! that both agree. Resolved trees and types stand below; the checker of whole modules stands above.
#![tactic(auto)]

mod check;
mod declared;
mod expressions;
mod flow;
mod keys;
mod laws;
mod looked;
mod site;
mod statements;
mod switches;
mod text;
mod ways;

pub use check::check_flow;
pub use flow::{Effect, Fact, Flow, Out, Possible};
pub use laws::flow_is_paths;
pub use site::Site;
pub use text::Around;
