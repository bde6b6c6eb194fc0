// Scans each text of its input, and writes a line for each: `whole`, or `stops` and the place. A text is a 16-bit big-endian
// length and so many bytes. The answers that it is held to were computed by another program.
#![tactic(auto)]

use program_input::read_full;
use std::io::Result;
use xml_scan::scan;

// The most bytes that are read.
const ROOM: usize = 65536;

fn write_answer<P: Print>(rt: &P, text: &[u8]) -> Result<()> {
    match scan(text) {
        Ok(()) => println!(rt; "whole"),
        Err(stopped) => println!(rt; "stops {}", stopped.at),
    }
}

fn scan_all<P: Print>(rt: &P, texts: &[u8]) -> Result<()> {
    let mut i = 0;
    while i < texts.len() {
        if texts.len() - i < 2 {
            return Ok(());
        }
        let at = i + 2;
        let n = usize::from(texts[i]) * 256 + usize::from(texts[i + 1]);
        if texts.len() - at < n {
            return Ok(());
        }
        i = at + n;
        write_answer(rt, &texts[at..i])?;
    }
    Ok(())
}

fn main(rt: HostRuntime) -> Result<()> {
    let mut input = [0u8; ROOM];
    let n = read_full(&mut rt.stdin(), &mut input)?;
    scan_all(&rt, &input[..n])
}
