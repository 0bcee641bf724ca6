// The edges of a program's process: its words, and how it ends.
ghost use Rattle.std.specs.Prelude.{◌≡◌};
ghost use Rattle.std.specs.Process.{exit_status};
ghost use Rattle.programs.specs.Status.{code_of};

use crate::status::Status;
use std::env;
use std::io::ErrorKind;
use std::process::ExitCode;

/// The arguments of the process without the program's name; `Memory` where there is none for them, and `Usage` where an
/// argument is not UTF-8.
pub fn words(rt: &HostRuntime) -> Result<Vec<String>, Status> {
    let args = match env::args(rt) {
        Ok(args) => args,
        Err(error) => {
            return Err(match error.kind() {
                ErrorKind::OutOfMemory => Status::Memory,
                _ => Status::Usage,
            });
        }
    };
    match args.skip(1).collect(rt.alloc()) {
        Ok(words) => Ok(words),
        Err(_) => Err(Status::Memory),
    }
}

/// Prints the status' text with a line feed on standard error, if it has one, and answers its code to end with.
pub fn ended(rt: &HostRuntime, status: Status) -> ExitCode
    ensures { exit_status result ≡ code_of status }
{
    let text = status.text();
    if !text.is_empty() {
        let _ = eprintln!(rt; "{text}");
    }
    ExitCode::from(status.code())
}
