//! New files.
ghost use Rattle.std.specs.Prelude.{◌≡◌, IfOk};
ghost use Rattle.ods_request.specs.Steps.{new_ident, new_body};
ghost use Rattle.ods_plain.specs.Files.{body_of, file_of};

use crate::files::{Body, File};
use crate::names::Names;
use ods_base::{Block, DIRECTORY_TYPE, Name, Uic};
use ods_request::{Stamp, new_ident};
use std::alloc::{AllocError, Global};

/// The body of a new file: a directory with no name, or blocks of zeros.
fn body(alloc: Global, name: &Name, blocks: u32) -> Result<Body, AllocError>
    ensures { IfOk result (λ body. body_of body ≡ new_body name.now blocks) }
{
    if name.ext() == DIRECTORY_TYPE {
        return Ok(Body::Directory(Names::new(alloc)));
    }
    let mut zeros = Vec::new(alloc);
    zeros.resize(blocks as usize, Block::zeros())?;
    Ok(Body::Plain {
        attributes: [0; 32],
        blocks: zeros,
    })
}

/// A new file of a user.
pub(crate) fn new_file(
    alloc: Global,
    who: Uic,
    protection: u16,
    name: &Name,
    version: u16,
    blocks: u32,
    stamp: &Stamp,
) -> Result<File, AllocError>
    ensures { IfOk result (λ f. file_of f ≡ record {
      owner = who;
      protection = protection;
      user_char = 0;
      system_char = 0;
      ident = new_ident name.now version stamp.now;
      body = new_body name.now blocks;
    }) }
{
    Ok(File {
        owner: who,
        protection,
        user_char: 0,
        system_char: 0,
        ident: new_ident(name, version, stamp),
        body: body(alloc, name, blocks)?,
    })
}
