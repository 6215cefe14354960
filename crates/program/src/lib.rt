// What the programs share: the first line of the report on a file, and the end of a program.
#![tactic(auto)]

ghost use Rattle.std.specs.Prelude.{◌≡◌, ◌≤◌, ◌++◌, length, drop, is_ok, if◌then◌else◌};
ghost use Rattle.std.specs.Process.{exit_status};
ghost use Rattle.report.specs.Headline.{headline_of};

use report::{LINE_ROOM, headline};
use std::process::ExitCode;
use structure::MOST_STATES;

// Writes the first line of the report on a file at the front of the room, and gives its length. A rule of the project asks what the whole
// room then holds, and of a room that is lent on, as a part of it, no clause can say that.
pub fn first_line(bytes: &[u8], room: &mut [u8; LINE_ROOM]) -> usize
    ensures value { result ≡ length (headline_of bytes.now) }
    ensures after { room.new ≡ headline_of bytes.now ++ drop (length (headline_of bytes.now)) room.old }
    ensures within { result ≤ LINE_ROOM }
{
    // Both slices are as long as any file asks for.
    let mut scratch = [0; 4 * MOST_STATES as usize];
    headline(bytes, room, &mut scratch).unwrap()
}

// Tells an error on the error stream, after the program's name, and gives the status with which the program ends.
pub fn finish(rt: &HostRuntime, name: &str, outcome: anyhow::Result<()>) -> ExitCode
    ensures { exit_status result ≡ (if is_ok outcome then 0 else 1) }
{
    match outcome {
        Ok(()) => ExitCode::SUCCESS,
        Err(error) => {
            // Where the error stream takes nothing either, the status alone tells.
            let _ = eprintln!(rt; "{name}: {error}");
            ExitCode::FAILURE
        }
    }
}

#[cfg(test)]
mod tests {
    use super::*;

    #[test]
    fn small_files(rt: HostRuntime) {
        let mut room = [b'.'; LINE_ROOM];
        assert_eq!(rt; first_line(&[0x01, 0x00, 0x0F, 0x20], &mut room), 36);
        assert!(rt; room.starts_with(b"states 2 reachable 2 propositions 1\n."));
        assert_eq!(rt; first_line(&[], &mut room), 16);
        assert!(rt; room.starts_with(b"model refused 1\nle 2 propositions 1\n."));
    }
}
