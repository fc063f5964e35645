//! The program `flow`.
#![tactic(auto)]

use std::process::ExitCode;

fn main(rt: HostRuntime) -> ExitCode {
    ExitCode::from(flow_command::obey(rt, &rt))
}
