// Reads a text from standard input and prints the answer.
#![tactic(auto)]

use report::report;
use std::io::{Read, Write};

// One byte more than a text may have: enough to know that it is too long.
const ENOUGH: u64 = 65537;

fn main(rt: HostRuntime) -> anyhow::Result<()> {
    let mut text = Vec::new(rt.alloc());
    rt.stdin().take(ENOUGH).read_to_end(&mut text)?;
    let page = report(rt.alloc(), &text)?;
    rt.stdout().write_all(&page)?;
    Ok(())
}
