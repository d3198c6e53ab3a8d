// hubrun takes a journal on standard input. It prints what both cards must show when the batch is finished,
// or the fault with its line. All that matters is in the library: here bytes are read and written.
// It stays a program beside hubreport until the report replaces these totals. One `main` for both would take `show` as a
// parameter, of which nothing says that the length it answers fits the text, so it would have to test that.
#![tactic(auto)]

use anyhow::anyhow;
use batch::{Shown, show};
use journal::reader::LONGEST;
use std::io::{Read, Write};

// One byte more than the longest journal: enough to tell that a journal is too long.
const KEPT: u64 = LONGEST as u64 + 1;

fn main(rt: HostRuntime) -> anyhow::Result<()> {
    let mut journal = Vec::new(rt.alloc());
    rt.stdin().take(KEPT).read_to_end(&mut journal)?;
    let mut text = [0; 2048];
    let shown = show(&journal, &mut text).map_err(|_| anyhow!(
        "the text is longer than its buffer"
    ))?;
    rt.stdout().write_all(&text[..shown.length()])?;
    match shown {
        Shown::Text(_) => Ok(()),
        Shown::Fault(_) => Err(anyhow!("the journal is refused")),
    }
}
