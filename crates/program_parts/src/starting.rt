//! How a program starts.

ghost use Rattle.std.specs.Prelude.{IfErr};
ghost use Rattle.program_parts.specs.Faults.{IsMemoryOr};

use crate::ending::exit_status;
use crate::no_fault::NoFault;
use crate::program_fault::ProgramFault;
use base_streams::StdSink;
use std::env;
use std::env::Env;
use std::fs::{File, Files};
use std::io::{Stderr, Stdout};
use std::process::ExitCode;

/// A file that has nothing to read, and takes nothing where it is opened to be read.
const NOTHING: &str = "/dev/null";

/// Runs a program on the words of its command line, without its name, with standard output and standard error as sinks,
/// and answers the exit status that it answers. Where the words can't be read, or are no text, it is not run, and the
/// fault is told.
pub fn run_main<
    R: Files<File = File> + Env + AllocGlobal,
    P: Fn(&[String], &mut StdSink<Stdout>, &mut StdSink<Stderr>) -> u8,
>(rt: &R, stdout: Stdout, stderr: Stderr, program: &P) -> ExitCode
    requires { P.IsAlwaysCallable program.now }
{
    // A file that is opened takes the first free number. Where a standard stream is closed that is the stream's, and lines
    // that are printed would go into the file. So these three take the numbers first, and keep them.
    let _first = File::open(rt, NOTHING);
    let _second = File::open(rt, NOTHING);
    let _third = File::open(rt, NOTHING);
    let mut out = StdSink::new(stdout);
    let mut faults = StdSink::new(stderr);
    let status = match words_of_command_line(rt) {
        Ok(words) => Ok(program(&words, &mut out, &mut faults)),
        Err(fault) => Err(fault),
    };
    ExitCode::from(exit_status(status, &mut faults))
}

// The words behind the program's name.
fn words_of_command_line<R: Env + AllocGlobal>(
    rt: &R,
) -> Result<Vec<String>, ProgramFault<'static, NoFault>>
    ensures { IfErr result (IsMemoryOr ProgramFault.Usage) }
{
    match env::args(rt) {
        Ok(words) => Ok(words.skip(1).collect::<Vec<String>>(rt.alloc())?),
        Err(error) => Err(ProgramFault::unless_memory(&error, ProgramFault::Usage)),
    }
}
