// Shows many journals, so that what the library says of them can be compared with what an independent model says.
// Each argument names a file that holds journals one behind the other: a line with the journal's name, a line with
// its length in bytes, and then its bytes. Lengths are told because a journal may hold any bytes and end anywhere.
// Of each journal the name is printed, and then its report or its fault print.
#![tactic(auto)]

use anyhow::anyhow;
use showing::show;
use std::fs::File;
use std::io::{BufRead, BufReader, Read, Write};
use std::{env, fs};

// As the programs that show one journal do it: of a `show` that comes as a parameter nothing would be known of the length.
fn print_shown(rt: HostRuntime, journal: &[u8]) -> anyhow::Result<()> {
    let mut text = [0; 4096];
    let shown = show(journal, &mut text).map_err(|_| anyhow!("the text does not fit its buffer"))?;
    rt.stdout().write_all(&text[..shown.length()])?;
    Ok(())
}

// Prints what is shown of the next journal; false where there is none.
fn print_next(rt: HostRuntime, journals: &mut BufReader<File>) -> anyhow::Result<bool> {
    let mut name = String::new(rt.alloc());
    if journals.read_line(&mut name)? == 0 {
        return Ok(false);
    }
    let mut line = String::new(rt.alloc());
    journals.read_line(&mut line)?;
    let length = line.trim_end().parse::<u64>()?;
    let mut journal = Vec::new(rt.alloc());
    journals.by_ref().take(length).read_to_end(&mut journal)?;
    print!(rt; "{name}")?;
    print_shown(rt, &journal)?;
    Ok(true)
}

fn main(rt: HostRuntime) -> anyhow::Result<()> {
    for path in env::args(&rt)?.skip(1) {
        let mut journals = BufReader::new(rt.alloc(), fs::open(&rt, path.as_str())?)?;
        // Nothing says that a file ends, so the loop counts.
        for _ in 0..u64::MAX {
            if !print_next(rt, &mut journals)? {
                break;
            }
        }
    }
    Ok(())
}
