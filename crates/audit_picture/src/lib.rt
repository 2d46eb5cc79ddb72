//! Pictures of what evidence shows: its blocks, the conflict among them and the culprits' votes as SVG. Needs no threads, files or
//! network.
#![tactic(auto)]

mod blocks_drawn;
mod choosing;
mod description;
mod digits;
mod drawing;
mod lanes;
mod layout;
mod notes;
mod placing;
mod recent;
mod rows;
mod scene;
mod standing;
mod voters;

pub use choosing::MOST_BLOCKS;
pub use drawing::{Purpose, draw};
pub use placing::{recent_picture, recent_scene_of, scene_of};
pub use recent::{LAST_COMMITS, MOST_OTHERS};
pub use scene::{Block, Column, Culprit, GridCell, LineEnd, Mark, Scene, Standing, Support};
