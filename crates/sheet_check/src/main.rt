// Judges a sheet: the file that is named, or standard input.
#![tactic(auto)]

use anyhow::ensure;
use sheet::Sheet;
use std::fs::File;
use std::io::Read;
use std::{env, io};
use verdict::Verdict;

// One byte more than a sheet may have is enough to judge any text.
const ENOUGH: u64 = 32769;

fn read_enough<R: Read + Drop>(rt: &HostRuntime, source: R) -> io::Result<Vec<u8>> {
    let mut bytes = Vec::new(rt.alloc());
    source.take(ENOUGH).read_to_end(&mut bytes)?;
    Ok(bytes)
}

// `-` is standard input.
fn read(rt: &HostRuntime, path: &str) -> io::Result<Vec<u8>> {
    if path == "-" {
        read_enough(rt, rt.stdin())
    } else {
        read_enough(rt, File::open(rt, path)?)
    }
}

fn run(rt: &HostRuntime, path: &str) -> anyhow::Result<()> {
    // A `match`, since the message may fail to be written, and then that is the error.
    let text = match read(rt, path) {
        Ok(text) => text,
        Err(error) => {
            eprintln!(rt; "sheet_check: {path} cannot be read: {error}")?;
            return Err(error.into());
        }
    };
    let mut sheet = Sheet::new(rt.alloc())?;
    let verdict = Verdict::of(&mut sheet, &text);
    rt.print(verdict)?;
    ensure!(verdict.is_accepted(), "the sheet is refused");
    Ok(())
}

fn main(rt: HostRuntime) -> anyhow::Result<()> {
    let path = env::args(&rt)?.nth(1);
    run(&rt, path.as_ref().map_or("-", |path| path.as_str()))
}
