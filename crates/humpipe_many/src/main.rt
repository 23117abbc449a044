//! humpipe-many: one plan over many cases, each of which is scores by their names.
//!
//! What it does stands in `hum_many`. Here it gets its input and its output.
#![tactic(auto)]

use hum_many::{ManyEnd, run_many};
use hum_text::calls::Marked;
use std::io;
use std::process::ExitCode;

fn main(rt: HostRuntime) -> ExitCode {
    let input = Marked::new(rt.reader());
    let output = Marked::new(io::writer(&rt));
    let (end, _output) = run_many(rt.alloc(), input, output);
    let _told = match end {
        ManyEnd::Finished => Ok(()),
        ManyEnd::Plan(_) => Ok(()),
        ManyEnd::Broken(at) => {
            eprintln!(rt; "humpipe-many: no packet that may stand at byte {at}")
        }
        ManyEnd::Read => eprintln!(rt; "humpipe-many: read failed"),
        ManyEnd::Write => eprintln!(rt; "humpipe-many: write failed"),
        ManyEnd::Memory => eprintln!(rt; "humpipe-many: out of memory"),
    };
    ExitCode::from(end.status())
}
