//! The planner: the words of the command line in, a status and one text out.
#![tactic(auto)]

mod claim;
mod dim;
mod escape;
mod file;
mod lamp_files;
mod light;
mod output;
mod page;
mod photometry;
mod program;
mod reply;
mod room;
mod scene;
mod spelling;
mod status;
#[cfg(test)]
mod tests;
mod top;
mod trial;
mod untaken;
mod words;

pub use page::lux_page;
pub use program::{run, run_page};
pub use status::Status;
pub use top::lux;
