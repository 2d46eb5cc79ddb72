//! An auditor that watches: `hs_watch COMMITTEE OUTDIR SOURCE.. ..`. docs/hs_watch.md is its manual page.
#![tactic(auto)]

use base_streams::StdSink;
use program_help::{WATCH, asked_in, run_help};
use program_parts::run_main;
use std::alloc::Global;
use std::io::{Read, Stderr, Stdin, Stdout};
use std::process::ExitCode;
use std::sync::Arc;
use std::sync::atomic::{AtomicBool, Ordering};
use std::{env, thread};
use watch_command::{FAULT, READS_INPUT, WatchHost, run_watch};

fn main(rt: HostRuntime) -> ExitCode {
    let Ok(ended) = Arc::new(rt.alloc(), AtomicBool::new(false)) else {
        return ExitCode::from(FAULT);
    };
    if asks_for_input(&rt)
        && let Ok(theirs) = Arc::try_clone(&ended)
    {
        let input = rt.stdin();
        // It is cut off where the watch ends before the input does.
        let _reader = thread::spawn(&rt, move || read_to_its_end(input, theirs));
    }
    run_main(
        &rt,
        rt.stdout(),
        rt.stderr(),
        &|words: &[String], out: &mut StdSink<Stdout>, faults: &mut StdSink<Stderr>| {
            if let Some(asked) = asked_in(words) {
                return run_help(rt.alloc(), &WATCH, asked, out, faults);
            }
            let host = WatchHost {
                rt: &rt,
                alloc: rt.alloc(),
                input_ended: &*ended,
            };
            run_watch(&host, words, out, faults)
        },
    )
}

// Whether the words say that the end of the input ends the watch.
fn asks_for_input<R: env::Env + AllocGlobal>(rt: &R) -> bool {
    match env::args(rt) {
        Ok(mut words) => words.any(|word: String| word.as_str() == READS_INPUT),
        Err(_) => false,
    }
}

fn read_to_its_end(mut input: Stdin, ended: Arc<AtomicBool, Global>) {
    let mut bytes = [0; 64];
    for _ in 0..u64::MAX {
        match input.read(&mut bytes) {
            Ok(0) | Err(_) => break,
            Ok(_) => {}
        }
    }
    ended.store(true, Ordering::SeqCst);
}
