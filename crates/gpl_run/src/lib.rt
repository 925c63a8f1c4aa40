//! The interpreter, built from its source, and GPL programs that it runs.
#![tactic(auto)]

mod assembling;
mod build;
mod error;
mod load;
mod loading;
mod session;

pub use build::build_interp;
pub use error::BuildError;
pub use load::load_interpreter;
pub use loading::load_machine;
pub use session::Session;
