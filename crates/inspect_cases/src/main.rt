// Inspects many pattern files, one on each line of standard input, and writes what is told of each, with an empty
// line behind it. A line has words of hexadecimal digits, HEX or HEX*N for N times those bytes, or is `e` for the
// empty file. oracle/README.md says where the lines and the expected answers come from.
#![tactic(auto)]

mod case;

use case::read_case;
use listing::list::inspect;
use std::io::{BufRead, BufReader};

fn main(rt: HostRuntime) -> anyhow::Result<()> {
    let heap = rt.alloc();
    for line in BufReader::new(heap, rt.stdin())?.lines(heap) {
        let line = line?;
        let file = read_case(heap, line.as_str())?;
        rt.println(inspect(heap, file.as_slice())?)?;
    }
    Ok(())
}
