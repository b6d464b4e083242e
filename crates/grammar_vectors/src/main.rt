#![tactic(auto)]
// Reads texts from standard input, one a line, and writes for each `reads` where it is a declaration, and else the number and
// the place of its refusal.
use anyhow::anyhow;
use grammar::read::read;
use refusals::refusal::Refusal;
use std::io::Read;

fn show_text(rt: &HostRuntime, text: &[u8]) -> anyhow::Result<()> {
    match read(rt.alloc(), text) {
        Ok(_tree) => println!(rt; "reads")?,
        Err(Refusal::Memory) => return Err(anyhow!("want of memory")),
        Err(refusal) => println!(rt; "{refusal}")?,
    }
    Ok(())
}

// The lines of a script; one that ends with a line feed has no further line behind it. `lanecheck` has the same few lines: a library
// for them alone is no plainer.
fn show_script(rt: &HostRuntime, script: &[u8]) -> anyhow::Result<()> {
    if script.is_empty() {
        return Ok(());
    }
    let lines = script.strip_suffix(b"\n").unwrap_or(script);
    for line in lines.split(|b| *b == b'\n') {
        show_text(rt, line)?;
    }
    Ok(())
}

fn run(rt: &HostRuntime) -> anyhow::Result<()> {
    let mut script = Vec::new(rt.alloc());
    rt.stdin().read_to_end(&mut script)?;
    show_script(rt, script.as_slice())
}

fn main(rt: HostRuntime) -> anyhow::Result<()> {
    run(&rt)
}
