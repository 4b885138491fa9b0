// Several print areas: document 02, request T-02.
#![tactic(auto)]

mod union;
mod upright;

pub use union::{cells_hold, union_cells};
pub use upright::is_upright;
