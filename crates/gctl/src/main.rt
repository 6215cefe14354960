// Prints the first line of the report on the model in `model.bin`.
#![tactic(auto)]

use anyhow::anyhow;
use program::{finish, first_line};
use report::LINE_ROOM;
use std::fs;
use std::io::{ErrorKind, Write};
use std::process::ExitCode;

// The bytes of the file, none where it is missing. `pair_files` reads files without this exception: one function for both is no plainer.
// An error is one text, as there.
fn read_model(rt: &HostRuntime) -> anyhow::Result<Vec<u8>> {
    match fs::read(rt, "model.bin") {
        Ok(bytes) => Ok(bytes),
        Err(error) if error.kind() == ErrorKind::NotFound => Ok(Vec::new(rt.alloc())),
        Err(error) => Err(anyhow!("model.bin: {error}")),
    }
}

fn run(rt: &HostRuntime) -> anyhow::Result<()> {
    let bytes = read_model(rt)?;
    let mut room = [0; LINE_ROOM];
    let length = first_line(bytes.as_slice(), &mut room);
    rt.stdout().write_all(&room[..length])?;
    Ok(())
}

fn main(rt: HostRuntime) -> ExitCode {
    finish(&rt, "gctl", run(&rt))
}
