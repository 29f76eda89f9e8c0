// Carries out the scripts that the arguments name, and writes what each prints behind a line with its name.
#![tactic(auto)]

use std::io::Write;
use std::{env, fs};

fn main(rt: HostRuntime) -> anyhow::Result<()> {
    for name in env::args(&rt)?.skip(1) {
        let script = fs::read(&rt, name.as_str())?;
        println!(rt; "{name}")?;
        let mut out = Vec::new(rt.alloc());
        script::run(rt.alloc(), script.as_slice(), &mut out)?;
        rt.stdout().write_all(out.as_slice())?;
    }
    Ok(())
}
