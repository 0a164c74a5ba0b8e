//! The program `response`: the words of its command line, over the files of the machine.
#![tactic(auto)]

use byte_lines::FileShelf;
use response_program::response;
use std::process::ExitCode;
use std::{env, io};

fn main(rt: HostRuntime) -> io::Result<ExitCode> {
    let alloc = rt.alloc();
    let mut words: Vec<String> = env::args(&rt)?.collect(alloc)?;
    if !words.is_empty() {
        let _ = words.remove(0);
    }
    let mut shelf = FileShelf::new(alloc, &rt);
    Ok(ExitCode::from(response(&rt, alloc, words.as_slice(), &mut shelf)))
}
