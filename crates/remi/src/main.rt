// The bench program: its exit status is what `remi_status` answers.
#![tactic(auto)]

use std::process::ExitCode;

fn main(rt: HostRuntime) -> ExitCode {
    ExitCode::from(remi_status::remi_status(&rt))
}
