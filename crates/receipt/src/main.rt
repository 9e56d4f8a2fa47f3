// Reads weekly files and writes each back as its receipt: `receipt FILE RECEIPT`, and so on for further pairs of names.
// Each step is printed on a line. A file that is refused prints one line, and nothing is written for it.
#![tactic(auto)]

use anyhow::anyhow;
use batch::lent::{Closed, Draft};
use faults::weekly::{ReadFault, ReceiptFault};
use pairs::change::Change;
use std::str::from_utf8;
use std::{env, fs};
use weekly::read::{note, read};
use weekly::reading::Reading;
use weekly::receipt::receipt;

// The layer that refused: the file itself, the draft it is read into, or the output.
// Words, and no enum with a `Display`: it would name each layer twice, for this one line.
fn layer(fault: &ReceiptFault) -> &'static str {
    match fault {
        ReceiptFault::Read(ReadFault::File(_)) => "file",
        ReceiptFault::Read(_) => "draft",
        ReceiptFault::Write(_) => "output",
    }
}

fn print_refusal(rt: &HostRuntime, fault: &ReceiptFault) -> anyhow::Result<()> {
    let layer = layer(fault);
    let cause = fault.cause();
    println!(rt; "no {layer} {cause}")?;
    Ok(())
}

fn print_reading(
    rt: &HostRuntime,
    from: &str,
    file: &[u8],
    reading: Reading,
) -> anyhow::Result<()> {
    let count = reading.count;
    let text = from_utf8(note(file))?;
    if text.is_empty() {
        println!(rt; "read {from}: changes {count}, no note")?;
    } else {
        println!(rt; "read {from}: changes {count}, note \"{text}\"")?;
    }
    Ok(())
}

fn print_changes(rt: &HostRuntime, batch: &Closed) -> anyhow::Result<()> {
    for Change { key, door, added } in batch.changes() {
        let sign = if *added { '+' } else { '-' };
        println!(rt; "{sign} {key} {door}")?;
    }
    Ok(())
}

// Reads the file again for its changes, and prints them as the draft and the closed batch hold them.
fn print_steps(rt: &HostRuntime, from: &str, file: &[u8]) -> anyhow::Result<()> {
    let mut memory = [Change::default(); 64];
    let mut draft = Draft::new(&mut memory);
    let Ok(reading) = read(file, &mut draft) else {
        return Ok(());
    };
    print_reading(rt, from, file, reading)?;
    let batch = draft.close();
    print_changes(rt, &batch)?;
    rt.println("the draft is closed")?;
    Ok(())
}

// One file and its receipt. The longest file that can be read has 348 bytes: an array, since a longer one is refused before anything is
// allocated for its receipt.
fn issue(rt: &HostRuntime, from: &str, to: &str) -> anyhow::Result<()> {
    let file = fs::read(rt, from)?;
    let mut out = [0u8; 348];
    if let Err(fault) = receipt(file.as_slice(), &mut out) {
        return print_refusal(rt, &fault);
    }
    print_steps(rt, from, file.as_slice())?;
    let length = file.len().min(out.len());
    let out = &out[..length];
    fs::write(rt, to, out)?;
    println!(rt; "written {to}: {length} bytes")?;
    if out == file.as_slice() {
        rt.println("its bytes are the file's own")?;
    }
    Ok(())
}

fn run(rt: &HostRuntime) -> anyhow::Result<()> {
    let words: Vec<String> = env::args(rt)?.skip(1).collect(rt.alloc())?;
    for pair in words.chunks(2) {
        let [from, to] = pair else {
            return Err(anyhow!("each file wants the name of its receipt"));
        };
        issue(rt, from.as_str(), to.as_str())?;
    }
    Ok(())
}

fn main(rt: HostRuntime) -> anyhow::Result<()> {
    run(&rt)
}
