//! The lines that are shown of units and pictures.
#![tactic(auto)]

mod lines;
mod names;
mod shown;
#[cfg(test)]
mod tests;
mod text;

pub use lines::{PictureState, Reference};
pub use shown::{push_list_line, push_picture_line, push_unit_line};
