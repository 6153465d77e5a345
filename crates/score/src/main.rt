//! The program: the real words, input and output, and disks in memory. Its exit status is the code of the top call.
#![tactic(auto)]

use score_base::Memory;
use score_cli::{memory_disks, score};
use score_io::{StdSink, StdSource};
use std::env;
use std::io::ErrorKind;
use std::process::ExitCode;

/// The words behind the program's name. Where one of them is not UTF-8 there are none, and no words are
/// no command.
fn words(rt: &HostRuntime) -> Result<Vec<String>, Memory> {
    let mut words = Vec::new(rt.alloc());
    match env::args(rt) {
        Ok(args) => {
            for word in args.skip(1) {
                words.push(word)?;
            }
        }
        Err(e) => {
            if e.kind() == ErrorKind::OutOfMemory {
                return Err(Memory);
            }
        }
    }
    Ok(words)
}

fn main(rt: HostRuntime) -> ExitCode {
    let Ok(words) = words(&rt) else {
        return ExitCode::from(6);
    };
    let Ok(mut disks) = memory_disks(rt.alloc()) else {
        return ExitCode::from(6);
    };
    let mut source = StdSource::new(rt.stdin());
    let mut sink = StdSink::new(rt.stdout());
    let status = score(rt.alloc(), &words, &mut source, &mut sink, &mut disks);
    ExitCode::from(status.code)
}
