// What a plan is told by, as text: document 01, section "Jobs".
#![tactic(auto)]

mod blocks;
mod lines;
mod text;

pub use blocks::{Block, area_block};
pub use lines::{area_line, head_lines, page_line, refusal_line, told_lines};
