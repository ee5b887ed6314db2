// The program `report`: what it does is crates/report_run, which returns its exit status. The three programs have a `main` each,
// since what differs is all that they are: which sheets, by which name, and which function.
#![tactic(auto)]

use program::Streams;
use program::sources::OneSheet;
use std::process::ExitCode;

fn main(rt: HostRuntime) -> ExitCode {
    let sheets = OneSheet::new(&rt, "report");
    let mut streams = Streams {
        out: rt.stdout(),
        err: rt.stderr(),
    };
    ExitCode::from(report_run::evp_run(&sheets, &mut streams))
}
