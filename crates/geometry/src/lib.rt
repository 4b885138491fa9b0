// Paper and content of a printed page: document 01, section "Paper and content".
#![tactic(auto)]

mod paper;

pub use paper::{ContentGeometry, Margins, Paper, PaperGeometry, content_geometry, paper_geometry};
