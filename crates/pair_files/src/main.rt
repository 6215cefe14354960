// Pairs the models of two files, packs the pair and prints what it did: pair_files FIRST SECOND [OUT]
// With OUT the packed pair is written there as well.
#![tactic(auto)]

ghost use Rattle.std.specs.Prelude.{◌≡◌, ◌≤◌, ◌↔◌, ◌++◌, length, drop, is_ok, IsOk, IfOk, IsErrOf, MatchResult, if◌then◌else◌};
ghost use Rattle.pair_files.specs.Outcomes.{pair_file, Accepted, Fits, HasPair, Because};
ghost use Rattle.pair_files.specs.declared.NoPair.TheVariants.{Refused, Misfit};

use anyhow::anyhow;
use packed::{FILE_ROOM, Packed, pack};
use pair::{Pair, fits};
use program::{finish, first_line};
use refusal::Refusal;
use report::LINE_ROOM;
use std::io::Write;
use std::process::ExitCode;
use std::{env, fmt, fs};
use thiserror::Error;

// Why two files have no pair.
#[derive(Debug, Drop, Error)]
enum NoPair {
    #[error("a file is refused")]
    Refused(Refusal),
    #[error("the models do not fit together")]
    Misfit,
}

impl From<Refusal> for NoPair {
    ghost from_gives = { λ cause reason. reason ≡ Refused cause };

    fn from(cause: Refusal) -> NoPair {
        NoPair::Refused(cause)
    }
}

// The bytes of a file. Here and below an error is one text: as a `context` the name would be cut elsewhere where it is long, and the program
// would not print what it did.
fn read(rt: &HostRuntime, path: &str) -> anyhow::Result<Vec<u8>> {
    fs::read(rt, path).map_err(|error| anyhow!("{path}: {error}"))
}

// Writes the bytes of a file, and says so.
fn write(rt: &HostRuntime, path: &str, bytes: &[u8]) -> anyhow::Result<()> {
    fs::write(rt, path, bytes).map_err(|error| anyhow!("{path}: {error}"))?;
    println!(rt; "written: {path}")?;
    Ok(())
}

// Prints the first line of the report on a file after its name.
fn tell(rt: &HostRuntime, name: &str, bytes: &[u8]) -> anyhow::Result<()> {
    let mut room = [0; LINE_ROOM];
    print!(rt; "{name}: ")?;
    let length = first_line(bytes, &mut room);
    rt.stdout().write_all(&room[..length])?;
    Ok(())
}

// Bytes as pairs of hexadecimal digits, a space before each.
#[derive(Drop)]
struct Hexadecimal<'a>(&'a [u8]);

impl fmt::Display for Hexadecimal<'_> {
    fn fmt<W: fmt::Write>(&self, f: &mut fmt::Formatter<W>) -> fmt::Result {
        for byte in self.0 {
            write!(f, " {byte:02X}")?;
        }
        Ok(())
    }
}

// Prints the first line of the report on the packed pair, and its bytes.
fn tell_packed(rt: &HostRuntime, file: &[u8]) -> anyhow::Result<()> {
    tell(rt, "pair", file)?;
    println!(rt; "packed: {} bytes:{}", file.len(), Hexadecimal(file))?;
    Ok(())
}

// Writes the file of the pair of the models of two files at the front of the room, in which every file has room, and gives its length.
// As with `first_line`, the clauses say what the whole room then holds.
fn pack_pair(first: &[u8], second: &[u8], room: &mut [u8; FILE_ROOM]) -> Result<usize, NoPair>
    ensures answer { MatchResult result (HasPair first.now second.now) (Because first.now second.now) }
    ensures pair { IsOk result ↔ (Accepted first.now second.now × Fits first.now second.now) }
    ensures misfit { IsErrOf result Misfit ↔ (Accepted first.now second.now × (¬ Fits first.now second.now)) }
    ensures after { let file = pair_file first.now second.now in room.new ≡ (if is_ok result then file ++ drop (length file) room.old else room.old) }
    ensures within { IfOk result (λ n. n ≤ FILE_ROOM) }
{
    let first = Packed::try_from(first)?;
    let second = Packed::try_from(second)?;
    if !fits(&first, &second) {
        return Err(NoPair::Misfit);
    }
    Ok(pack(&Pair::new(first, second), room).unwrap())
}

fn run(rt: &HostRuntime) -> anyhow::Result<()> {
    let mut args = env::args(rt)?;
    args.next();
    let (Some(first), Some(second), out, None) = (
        args.next(),
        args.next(),
        args.next(),
        args.next(),
    ) else {
        return Err(anyhow!("usage: pair_files FIRST SECOND [OUT]"));
    };
    let first = read(rt, first.as_str())?;
    let second = read(rt, second.as_str())?;
    tell(rt, "first", first.as_slice())?;
    tell(rt, "second", second.as_slice())?;
    let mut room = [0; FILE_ROOM];
    let length = match pack_pair(first.as_slice(), second.as_slice(), &mut room) {
        Ok(length) => length,
        Err(reason) => {
            if let NoPair::Misfit = reason {
                println!(rt; "fits: no")?;
            }
            return Err(reason.into());
        }
    };
    println!(rt; "fits: yes")?;
    let file = &room[..length];
    tell_packed(rt, file)?;
    match out {
        Some(path) => write(rt, path.as_str(), file),
        None => Ok(()),
    }
}

fn main(rt: HostRuntime) -> ExitCode {
    finish(&rt, "pair_files", run(&rt))
}
