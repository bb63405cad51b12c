//! Header lines of images in files, and of the sample volume of 40 blocks.
ghost use Rattle.ods_cli.specs.Runs.{IsHeaderNumber};

use ods_cli::{ServeFault, header_run, sample, status};
use std::process::ExitCode;
use std::rt::Files;
use std::{fs, io};

/// Prints the line of a header of the image at this path, or of the sample volume without a path. Returns the exit status.
pub fn print_header<R: Files + AllocGlobal + Print>(
    rt: &R,
    image: Option<&str>,
    number: u16,
) -> Result<ExitCode, ServeFault>
    requires { IsHeaderNumber number }
{
    let replies = &mut io::writer(rt);
    let found = match image {
        Some(path) => match fs::open(rt, path) {
            Ok(mut file) => header_run(rt.alloc(), &mut file, number, replies)?,
            Err(_) => return Err(ServeFault::Read),
        },
        None => {
            let bytes = sample(rt.alloc(), 40)?;
            header_run(rt.alloc(), &mut bytes.as_slice(), number, replies)?
        }
    };
    Ok(ExitCode::from(status(&Ok(found))))
}
