//! The rules of evolution: which of them two interfaces break, and the lines of the report.
//!
//! `breaks` answers the whole list of broken rules in its order, `report_line` the line on one of them. `specs/Rules` of
//! `evo_first_form` says both, and `specs/Laws` that an interface breaks no rule against itself. Interfaces and their
//! tables of names (`evo_iface`) stand below; the top call in `evo_driver` stands above.
#![tactic(auto)]

mod laws;
mod removed;
mod report;

pub use laws::keeps_itself;
pub use removed::breaks;
pub use report::report_line;
