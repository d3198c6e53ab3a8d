// hubreport takes a journal on standard input. It prints the report of the hub that the journal leads to, and ends with status
// 0; or it prints the fault for which the replay stops, with its line, and ends with status 1.
// All that matters is in the library: here bytes are read and written.
// It stands beside hubrun, with the same `main`, for the reason that is given there.
#![tactic(auto)]

use anyhow::anyhow;
use journal::reader::LONGEST;
use showing::{Shown, show};
use std::io::{Read, Write};

// One byte more than the longest journal: enough to tell that a journal is too long.
const KEPT: u64 = LONGEST as u64 + 1;

// Room for the longest report: ten lines, of which two have at most eight figures of a card's register.
const ROOM: usize = 2048;

fn main(rt: HostRuntime) -> anyhow::Result<()> {
    let mut journal = Vec::new(rt.alloc());
    rt.stdin().take(KEPT).read_to_end(&mut journal)?;
    let mut text = [0; ROOM];
    let shown = show(&journal, &mut text).map_err(|_| anyhow!(
        "the text is longer than its buffer"
    ))?;
    rt.stdout().write_all(&text[..shown.length()])?;
    match shown {
        Shown::Text(_) => Ok(()),
        Shown::Fault(_) => Err(anyhow!("the journal is refused")),
    }
}
