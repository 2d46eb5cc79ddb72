//! The script as a whole, and its transcript.

use crate::file_commands::answer;
use crate::line::{Line, line_of};
use base_streams::MemorySink;
use std::fs::{File, Files};
use std::io::Write;
use std::{fs, io};

/// Runs the script on standard input, and prints a transcript: each line behind `> `, and then what it did. Comments
/// (`#`) and empty lines are printed as they are. What fails says so, and the script goes on.
///
/// `NAME WORD.. [< FILE] [> full]` runs a program, and prints its output, behind `! ` its faults, and its status; `''` is
/// the empty word, `^J` in a word a line feed, `< FILE` its standard input, and with `> full` its standard output takes nothing. The other lines are
/// commands about files: `same FILE FILE`, `absent FILE`, `length FILE`, `mode FILE`, `folder FOLDER` for a new one,
/// `join FILE PART..` to make a file of others, one behind the other, `zeros COUNT FILE` to make one of digits 0, and
/// `link FILE NAME` to make a link to a file.
///
/// `programs` runs the program of a name on words, with the bytes on its standard input, its output and its faults, and
/// answers its exit status, or none where there is no such program.
pub fn run_script<
    R: Files<File = File> + Input + Print + AllocGlobal,
    P: Fn(&str, &[String], &[u8], &mut MemorySink, &mut MemorySink) -> Option<u8>,
>(rt: &R, programs: &P) -> io::Result<()>
    requires { P.IsAlwaysCallable programs.now }
{
    for line in rt.lines(rt.alloc()) {
        let line = line?;
        if line.is_empty() || line.starts_with('#') {
            println!(rt; "{line}")?;
        } else {
            println!(rt; "> {line}")?;
            run_line(rt, programs, &line)?;
        }
    }
    Ok(())
}

fn run_line<
    R: Files<File = File> + Print + AllocGlobal,
    P: Fn(&str, &[String], &[u8], &mut MemorySink, &mut MemorySink) -> Option<u8>,
>(rt: &R, programs: &P, line: &str) -> io::Result<()>
    requires { P.IsAlwaysCallable programs.now }
{
    let words = line.split(' ').collect::<Vec<&str>>(rt.alloc())?;
    match answer(rt, &words) {
        Ok(Some(answer)) => println!(rt; "{answer}"),
        Ok(None) => run_program(rt, programs, &words),
        Err(_) => println!(rt; "failed"),
    }
}

fn run_program<
    R: Files<File = File> + Print + AllocGlobal,
    P: Fn(&str, &[String], &[u8], &mut MemorySink, &mut MemorySink) -> Option<u8>,
>(rt: &R, programs: &P, words: &[&str]) -> io::Result<()>
    requires { P.IsAlwaysCallable programs.now }
{
    let alloc = rt.alloc();
    let line = line_of(alloc, words)?;
    let Ok(input) = input_of(rt, &line) else {
        return println!(rt; "no input");
    };
    let mut out = MemorySink::new(alloc);
    if line.is_full {
        out.fuse(0, true);
    }
    let mut faults = MemorySink::new(alloc);
    let status = programs(line.name, &line.words, &input, &mut out, &mut faults);
    print_run(rt, out.bytes(), faults.bytes(), status)
}

fn print_run<R: Print>(rt: &R, out: &[u8], faults: &[u8], status: Option<u8>) -> io::Result<()> {
    io::writer(rt).write_all(out)?;
    if !faults.is_empty() {
        print!(rt; "! ")?;
        io::writer(rt).write_all(faults)?;
    }
    match status {
        Some(status) => println!(rt; "status {status}"),
        None => println!(rt; "no such program"),
    }
}

// The bytes of the file that the line names, or none.
fn input_of<R: Files<File = File> + AllocGlobal>(rt: &R, line: &Line<'_>) -> io::Result<Vec<u8>> {
    match line.input {
        Some(path) => fs::read(rt, path),
        None => Ok(Vec::new(rt.alloc())),
    }
}
