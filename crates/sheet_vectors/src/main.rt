// Judges many sheets: each case is a line `case NAME LENGTH`, then that many bytes, then a byte 10. Writes a line for each,
// with its name and its verdict.
#![tactic(auto)]

use anyhow::{Context, ensure};
use sheet::Sheet;
use std::io::Read;
use std::str;
use verdict::Verdict;
use words::cut;

// The name and the length in the line that begins a case.
fn header(line: &[u8]) -> anyhow::Result<(&str, usize)> {
    let rest = line
        .strip_prefix(b"case ")
        .context("a case begins with `case`")?;
    let (name, digits) = cut(rest, b' ').context("a case has a name and a length")?;
    let length = str::from_utf8(digits)?.parse::<usize>()?;
    Ok((str::from_utf8(name)?, length))
}

fn judge_all(rt: &HostRuntime, cases: &[u8]) -> anyhow::Result<()> {
    let mut sheet = Sheet::new(rt.alloc())?;
    let mut rest = cases;
    // Each case says how long it is, so an iterator over cases would keep this same cursor and give a `Result` besides.
    while let Some((line, after)) = cut(rest, b'\n') {
        let (name, length) = header(line)?;
        let (text, after) = after
            .split_at_checked(length)
            .context("a case has not the length that it says")?;
        rest = after
            .strip_prefix(b"\n")
            .context("a case has not the length that it says")?;
        let verdict = Verdict::of(&mut sheet, text);
        println!(rt; "{name} {} {}", verdict.head(), verdict.detail())?;
    }
    ensure!(rest.is_empty(), "the last case is not whole");
    Ok(())
}

fn main(rt: HostRuntime) -> anyhow::Result<()> {
    let mut cases = Vec::new(rt.alloc());
    rt.stdin().read_to_end(&mut cases)?;
    judge_all(&rt, &cases)
}
