//! What each command does, in one call. Each promise on which command runs holds over all `Commands`.
use crate::changing::change_image;
use crate::command_files::obey_file;
use crate::converting::convert_image;
use crate::host::Host;
use crate::making::init_image;
use crate::orders::layers_of;
use crate::repairing::repair_image;
use fs_reads::{
    Progress, Stop, check, info, obey, open_readable, open_volume, rescue, say_end, show_space,
};
use fs_words::{Action, Change, Layering, Repairs, Words};
use ods_order::Order;
use ods_shell::Status;

/// The commands of `f11fs`. Each returns the exit status with which it ended, or why it stopped early.
pub trait Commands {
    ghost use Rattle.std.specs.Prelude.{IfOk, IsTrue};
    ghost use Rattle.fs_words.specs.declared.actions.Action.{Action as Asked};
    ghost use Rattle.fs_words.specs.declared.actions.Action.TheVariants as asked;
    ghost use Rattle.fs_words.specs.declared.words.Words.{Words as Given};
    ghost use Rattle.ods_shell.specs.declared.status.Status.{Status as Code};
    ghost use Rattle.f11fs.specs.Seen.{only_reads};

    /// This command ran with these words, and ended with this status. For commands about which nothing is known, each ran.
    ghost ran: { Self → Given → Asked → Code → Type 0 };

    /// Runs a command that reads a volume and leaves it unchanged, sound or not; `df` requires a sound one.
    fn read<'a>(&mut self, words: &Words<'a>, progress: &mut Progress) -> Result<Status, Stop<'a>>
        ensures { IfOk result (λ s. IsTrue (only_reads words.now.action) → ran self.new words.now words.now.action s) };

    /// Runs `check`.
    fn check<'a>(&mut self, words: &Words<'a>, all: bool) -> Result<Status, Stop<'a>>
        ensures { IfOk result (ran self.new words.now (asked.Check all)) };

    /// Runs `info`.
    fn info<'a>(&mut self, words: &Words<'a>) -> Result<Status, Stop<'a>>
        ensures { IfOk result (ran self.new words.now asked.Info) };

    /// Runs `rescue`.
    fn rescue<'a>(
        &mut self,
        words: &Words<'a>,
        text: bool,
        scan: bool,
        partial: bool,
        progress: &mut Progress,
    ) -> Result<Status, Stop<'a>>
        ensures { IfOk result (ran self.new words.now (asked.Rescue text scan partial)) };

    /// Runs a command that changes a volume.
    fn change<'a>(&mut self, words: &Words<'a>, change: Change<'a>) -> Result<Status, Stop<'a>>
        ensures { IfOk result (ran self.new words.now (asked.Change change.entry)) };

    /// Runs `repair`.
    fn repair<'a>(
        &mut self,
        words: &Words<'a>,
        kinds: Repairs,
        into: Option<&'a str>,
    ) -> Result<Status, Stop<'a>>
        ensures { IfOk result (ran self.new words.now (asked.Repair kinds into.entry)) };

    /// Runs `init`.
    fn init<'a>(
        &mut self,
        words: &Words<'a>,
        blocks: u32,
        files: Option<u32>,
        label: Option<&'a str>,
        order: Option<Order>,
    ) -> Result<Status, Stop<'a>>
        ensures { IfOk result (ran self.new words.now (asked.Init blocks files label.entry order)) };

    /// Runs `convert`.
    fn convert<'a>(
        &mut self,
        words: &Words<'a>,
        order: Option<Layering>,
        alone: bool,
    ) -> Result<Status, Stop<'a>>
        ensures { IfOk result (ran self.new words.now (asked.Convert order alone)) };

    /// Runs the commands in a file.
    fn obey_lines<'a>(
        &mut self,
        words: &Words<'a>,
        file: &'a str,
        keep_going: bool,
    ) -> Result<Status, Stop<'a>>
        ensures { IfOk result (ran self.new words.now (asked.Commands file.entry keep_going)) };
}

/// The commands on the real host. No clause states what a run of them does to the host, so `ran` holds of each here.
#[derive(Drop)]
pub struct HostCommands<'r, R> {
    pub rt: &'r R,
}

impl<R: Host> Commands for HostCommands<'_, R> {
    ghost use Rattle.std.specs.Prelude.{⊤};

    ghost ran = { λ commands words asked status. ⊤ };

    fn read<'a>(&mut self, words: &Words<'a>, progress: &mut Progress) -> Result<Status, Stop<'a>> {
        read_volume(self.rt, words, progress)
    }

    fn check<'a>(&mut self, words: &Words<'a>, all: bool) -> Result<Status, Stop<'a>> {
        let layers = layers_of(words.order);
        check(self.rt, words.image, words.blocks, layers, all, words.json)
    }

    fn info<'a>(&mut self, words: &Words<'a>) -> Result<Status, Stop<'a>> {
        let layers = layers_of(words.order);
        info(
            self.rt,
            words.image,
            words.blocks,
            layers,
            words.json,
            !words.quiet,
        )
    }

    fn rescue<'a>(
        &mut self,
        words: &Words<'a>,
        text: bool,
        scan: bool,
        partial: bool,
        progress: &mut Progress,
    ) -> Result<Status, Stop<'a>> {
        rescue(
            self.rt,
            words,
            layers_of(words.order),
            text,
            scan,
            partial,
            progress,
        )
    }

    fn change<'a>(&mut self, words: &Words<'a>, change: Change<'a>) -> Result<Status, Stop<'a>> {
        change_image(self.rt, words, change)
    }

    fn repair<'a>(
        &mut self,
        words: &Words<'a>,
        kinds: Repairs,
        into: Option<&'a str>,
    ) -> Result<Status, Stop<'a>> {
        repair_image(self.rt, words, kinds, into)
    }

    fn init<'a>(
        &mut self,
        words: &Words<'a>,
        blocks: u32,
        files: Option<u32>,
        label: Option<&'a str>,
        order: Option<Order>,
    ) -> Result<Status, Stop<'a>> {
        init_image(self.rt, words, blocks, files, label, order)
    }

    fn convert<'a>(
        &mut self,
        words: &Words<'a>,
        order: Option<Layering>,
        alone: bool,
    ) -> Result<Status, Stop<'a>> {
        convert_image(self.rt, words, order, alone)
    }

    fn obey_lines<'a>(
        &mut self,
        words: &Words<'a>,
        file: &'a str,
        keep_going: bool,
    ) -> Result<Status, Stop<'a>> {
        obey_file(self.rt, words, file, keep_going)
    }
}

/// Does what the words ask for on a volume, which stays as it is. Where a mount refuses it, that is the status, whatever is shown.
fn read_volume<'a, R: Host>(
    rt: &R,
    words: &Words<'a>,
    progress: &mut Progress,
) -> Result<Status, Stop<'a>> {
    let layers = layers_of(words.order);
    if let Action::Df = words.action {
        let volume = open_volume(rt, words.image, words.blocks, layers, !words.quiet)?;
        return show_space(rt, &volume, words);
    }
    let volume = open_readable(rt, words.image, words.blocks, layers, false)?;
    let done = obey(rt, &volume.disk(), words, progress);
    match volume.ends(Status::Done) {
        Status::Done => done,
        refused => {
            let _ = say_end(rt, done);
            Ok(refused)
        }
    }
}
