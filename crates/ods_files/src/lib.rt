//! The files of a volume, for programs that extract them: the bytes of a file, by its blocks and its attributes.
#![tactic(auto)]

mod body;
mod comparing;
mod fault;
mod form;
mod inside;
mod sending;

pub use body::FileBody;
pub use fault::{CopyFault, FileFault};
pub use form::Form;
pub use inside::outside;
