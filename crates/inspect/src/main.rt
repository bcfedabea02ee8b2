// Tells of a pattern file what it holds: each command, each position, or why it is refused.
// The file is PATTERN in the working directory, or the one that is named; one that can't be read counts as empty.
#![tactic(auto)]

use listing::list::inspect;
use std::{env, fs, io};

fn main(rt: HostRuntime) -> io::Result<()> {
    let heap = rt.alloc();
    let path = match env::args(&rt)?.nth(1) {
        Some(path) => path,
        None => String::from_str(heap, "PATTERN")?,
    };
    let file = fs::read(&rt, path.as_str()).unwrap_or_else(|_| Vec::new(heap));
    rt.print(inspect(heap, file.as_slice())?)
}
