//! Runs scenarios of a replica at the operator's tool: the script on standard input, over the files of `data`.
#![tactic(auto)]

use base_streams::{MemoryFeed, MemorySink};
use program_tool::{Extras, SystemFiles, ToolHost, run_tool};
use replica_files::KnownSeed;
use runs_script::run_script;
use std::io;

fn main(rt: HostRuntime) -> io::Result<()> {
    run_script(
        &rt,
        &|name: &str, words: &[String], input: &[u8], out: &mut MemorySink, faults: &mut MemorySink| {
            match (name, input.to_vec(rt.alloc())) {
                ("hs_tool", Ok(input)) => {
                    let host = ToolHost {
                        files: &rt,
                        rt: &rt,
                        alloc: rt.alloc(),
                        console: None,
                        is_typed: false,
                    };
                    Some(run_tool(
                        &host,
                        &KnownSeed::none(),
                        words,
                        &mut MemoryFeed::new(input),
                        out,
                        faults,
                        &mut Extras {
                            whys: MemorySink::new(rt.alloc()),
                            files: SystemFiles::of(&rt, rt.alloc()),
                        },
                    ))
                }
                _ => None,
            }
        },
    )
}
