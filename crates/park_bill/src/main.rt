#![tactic(auto)]

// The program: reads a job from standard input, and writes its bill, or why it was refused, to standard output.
use anyhow::anyhow;
use job::{LONGEST_TEXT, Stop, run_job};
use std::io::{Read, Write};

// The readings of a month of 31 days, and the bytes that suffice for every print.
const READINGS: usize = 2_976;

const PRINT_ROOM: usize = 512;

// Carries out the job and writes what it came to.
fn answer(
    rt: &HostRuntime,
    text: &[u8],
    storage: &mut [u32],
    buffer: &mut [u8],
) -> anyhow::Result<()> {
    match run_job(text, storage, buffer) {
        Ok(count) => rt.stdout().write_all(&buffer[..count])?,
        Err(Stop::Refused { refusal, line }) => {
            let number = refusal.number();
            println!(rt; "refused={number}\nline={line}")?;
        }
        Err(Stop::Unsupported { line }) => {
            return Err(anyhow!(format!(in rt.alloc(); "line {line} is not carried out yet")?));
        }
    }
    Ok(())
}

// Reads all of the input, or as much as shows that it is too long.
fn run(rt: &HostRuntime) -> anyhow::Result<()> {
    let mut text = Vec::new(rt.alloc());
    rt.stdin()
        .take(LONGEST_TEXT as u64 + 1)
        .read_to_end(&mut text)?;
    let mut storage = vec![in rt.alloc(); 0u32; READINGS]?;
    let mut buffer = vec![in rt.alloc(); 0u8; PRINT_ROOM]?;
    answer(rt, &text, &mut storage, &mut buffer)
}

fn main(rt: HostRuntime) -> anyhow::Result<()> {
    run(&rt)
}
