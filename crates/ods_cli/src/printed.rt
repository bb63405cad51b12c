//! The replies to a script as a session prints them, each as soon as it is there.
use ods_ask::{Command, Reply};
use ods_script::push_reply;
use ods_share::Keep;
use std::alloc::{AllocError, Global};

/// The replies to a script's commands, in order, as they are printed. A session keeps this text instead of the replies.
#[derive(Drop)]
pub struct Printed {
    pub text: String,
}

impl Keep for Printed {
    ghost use Rattle.ods_cli.specs.Printing.{ArePrinted};

    ghost keeps = { ArePrinted };

    fn begin(alloc: Global, _script: &[Command]) -> Result<Printed, AllocError> {
        Ok(Printed {
            text: String::new(alloc),
        })
    }

    fn keep(&mut self, command: &Command, reply: Reply) -> Result<(), AllocError> {
        push_reply(&mut self.text, command, &reply)
    }
}
