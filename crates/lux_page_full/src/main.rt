//! The program `lux_page`, run over a room of as much as a page can have.
#![tactic(auto)]

use lux_core::run_page;
use std::process::ExitCode;

fn main(rt: HostRuntime) -> ExitCode {
    ExitCode::from(run_page(&rt).code())
}
