// Carries out the script on the standard input, and writes what it prints to the standard output.
#![tactic(auto)]

use std::io;
use std::io::{Read, Write};

// A script has at most 65,536 bytes: one more shows that it is too long.
const ENOUGH: u64 = 65537;

fn main(rt: HostRuntime) -> io::Result<()> {
    let mut script = Vec::new(rt.alloc());
    rt.stdin().take(ENOUGH).read_to_end(&mut script)?;
    let mut out = Vec::new(rt.alloc());
    script::run(rt.alloc(), script.as_slice(), &mut out)?;
    rt.stdout().write_all(out.as_slice())
}
