//! Consecutive requests on a mounted volume, and files put into it.
#![tactic(auto)]

mod contiguous;
mod filing;
mod laws;
mod put;
mod slices;

pub use contiguous::put_contiguous;
pub use filing::Filing;
pub use laws::{
    bytes_come_back, chosen_comes_back, form_comes_back, lists_are_steps, text_comes_back,
};
pub use put::{NewFile, put_file};
pub use slices::blocks_for;
