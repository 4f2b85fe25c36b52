// The program: it lends the real files, standard output and an open gate to the top call, and ends
// with its status.
#![tactic(auto)]

use disp_outside::{FileShelf, OpenGate, StandardOutput};
use dispatch_cli::dispatch;
use std::process::ExitCode;
use std::rt::Env;
use std::{env, io};

/// The words behind the program's name, or none where one is no text.
fn words<R: Env + AllocGlobal>(rt: &R) -> io::Result<Vec<String>> {
    match env::args(rt) {
        Ok(args) => Ok(args.skip(1).collect(rt.alloc())?),
        Err(error) if error.kind() == io::ErrorKind::OutOfMemory => Err(error),
        Err(_) => Ok(Vec::new(rt.alloc())),
    }
}

fn main(rt: HostRuntime) -> ExitCode {
    let alloc = rt.alloc();
    let Ok(words) = words(&rt) else {
        let _ = rt.println("memory");
        return ExitCode::from(5);
    };
    let mut shelf = FileShelf::new(alloc, rt);
    let mut out = StandardOutput::new(io::writer(&rt));
    let done = dispatch(&rt, alloc, &words, &mut shelf, &mut out, &OpenGate);
    ExitCode::from(done.status)
}
