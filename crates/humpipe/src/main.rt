//! humpipe: pipelines of commands of the Humdrum Toolkit over scores, streaming.
//!
//! What it does stands in `hum_program`. Here it gets its words, its input, its files and its output.
#![tactic(auto)]

use hum_program::{Ending, Folder, run_program};
use hum_text::calls::LARGEST_READ;
use hum_text::gathered::Gathered;
use std::fs::File;
use std::io::{self, BufWriter, ErrorKind, Printer};
use std::process::ExitCode;
use std::{env, fs};

/// The files of the machine. It isn't known which there are.
#[derive(Drop)]
struct Files<'a> {
    rt: &'a HostRuntime,
}

impl<'a> Folder for Files<'a> {
    type File = File;

    ghost use Rattle.std.specs.Prelude.{false, None};

    ghost is_known = { λ _. false };

    ghost file = { λ _ _. None };

    fn open(&self, name: &str) -> io::Result<File> {
        fs::open(self.rt, name)
    }
}

/// Standard output, in blocks.
type Output<'a> = Gathered<BufWriter<Printer<'a, HostRuntime>>>;

fn output(rt: &HostRuntime) -> io::Result<Output<'_>> {
    let writer = BufWriter::with_capacity(rt.alloc(), LARGEST_READ, io::writer(rt))?;
    Ok(Gathered::new(rt.alloc(), writer)?)
}

/// The words of the command line, or what the program ends with where they are no text.
fn words(rt: &HostRuntime) -> Result<Vec<String>, Ending> {
    let words = match env::args(rt) {
        Ok(words) => words.collect(rt.alloc()),
        Err(error) if error.kind() == ErrorKind::OutOfMemory => return Err(Ending::Memory),
        Err(_) => return Err(Ending::Usage),
    };
    match words {
        Ok(words) => Ok(words),
        Err(_) => Err(Ending::Memory),
    }
}

/// Runs what the command line asks for.
fn run(rt: &HostRuntime) -> Ending {
    let words = match words(rt) {
        Ok(words) => words,
        Err(ending) => return ending,
    };
    let Ok(output) = output(rt) else {
        return Ending::Memory;
    };
    let (ending, _output) = run_program(rt.alloc(), &words, rt.reader(), &Files { rt }, output);
    ending
}

fn main(rt: HostRuntime) -> ExitCode {
    let ending = run(&rt);
    let status = ending.status();
    if status != 0 {
        let _told = eprintln!(rt; "{ending}");
    }
    ExitCode::from(status)
}
