// The label of a quote, escaped into template text and cooked back.
use anyhow::ensure;
use script::{Call, Hex};
use std::io;
use std::str::from_utf8;

// The label, in its stored form. It ends in CR and a lone surrogate, D83D, in three bytes.
const LABEL: &[u8] = b"PWR `Q1` $45.10/$47.25 \\ MWh\r\xED\xA0\xBD";

// Escapes the label, cooks what comes of it, and prints each step.
pub fn show(rt: &(impl Print + AllocGlobal)) -> anyhow::Result<()> {
    let heap = rt.alloc();
    let raw = Call::Escape.run(heap, LABEL, usize::MAX)?;
    let cooked = Call::Cook.run(heap, raw.as_slice(), usize::MAX)?;
    let template = from_utf8(raw.as_slice())?;
    print_text(rt, "label", LABEL)?;
    print_text(rt, "escaped", raw.as_slice())?;
    println!(rt; "template  `{template}`")?;
    print_text(rt, "cooked", cooked.as_slice())?;
    ensure!(
        cooked.as_slice() == LABEL,
        "the cooked text is not the label"
    );
    println!(rt; "the cooked text is the label")?;
    Ok(())
}

fn print_text(rt: &impl Print, name: &str, text: &[u8]) -> io::Result<()> {
    let len = text.len();
    println!(rt; "{name:<9} {len} bytes: {}", Hex(text))
}
