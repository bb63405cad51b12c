//! The lines that a command prints: in pieces, so that a long list is not held in memory.
ghost use Rattle.std.specs.Prelude.{◌≡◌, ◌<◌, ◌++◌, ◌⊎◌, [], true, false, IfOk, OnOk, string_bytes};
ghost use Rattle.fs_reads.specs.Shown.{StaysSaid};
ghost use Rattle.ods_shell.specs.declared.status.Status.{Status as Code};

use crate::file_paths::{Beside, line_about};
use crate::stop::{Stop, send};
use ods_shell::{Status, number_object, text_object};
use std::alloc::Global;
use std::fmt::Display;

/// From how many bytes on a piece goes out.
const PIECE: usize = 32_768;

/// A buffer of lines, or objects, for standard output.
#[derive(Drop)]
pub(crate) struct Output {
    alloc: Global,
    json: bool,
    text: String,
    is_empty: bool,
}

impl Output {
    /// Returns an output without lines.
    pub fn new(alloc: Global, json: bool) -> Output
        ensures { (result.is_empty ≡ true) × (string_bytes result.text ≡ []) × (result.json ≡ json) }
    {
        Output {
            alloc,
            json,
            text: String::new(alloc),
            is_empty: true,
        }
    }

    /// Returns whether no line was printed.
    pub fn is_empty(&self) -> bool
        ensures { result ≡ self.now.is_empty }
    {
        self.is_empty
    }

    /// Prints a line, or an object with the line as the text of this name.
    pub fn say<'a, R: Print, D: Display + Drop>(
        &mut self,
        rt: &R,
        name: &str,
        line: D,
    ) -> Result<Status, Stop<'a>>
        ensures said { OnOk result (self.new.is_empty ≡ false) }
        ensures status { IfOk result (λ s. s ≡ Code.Done) }
    {
        let text = format!(in self.alloc; "{line}")?;
        if self.json {
            let object = text_object(self.alloc, name, text.as_str())?;
            self.push(rt, object.as_str())
        } else {
            self.text.push_str(text.as_str())?;
            self.push(rt, "\n")
        }
    }

    /// Prints a line about files, followed by their paths; or an object with the line as the text of this name, and the paths.
    pub fn say_about<'a, R: Print, D: Display + Drop>(
        &mut self,
        rt: &R,
        name: &str,
        line: D,
        beside: &Beside,
    ) -> Result<Status, Stop<'a>>
        ensures said { OnOk result (self.new.is_empty ≡ false) }
        ensures status { IfOk result (λ s. s ≡ Code.Done) }
    {
        let text = format!(in self.alloc; "{line}")?;
        let told = line_about(self.alloc, self.json, name, text.as_str(), beside)?;
        self.push(rt, told.as_str())
    }

    /// Prints how many lines are left out, if any, and these words after the number; or an object with the number of this name.
    pub fn say_more<'a, R: Print>(
        &mut self,
        rt: &R,
        name: &str,
        more: u64,
        words: &str,
    ) -> Result<Status, Stop<'a>>
        ensures stays { OnOk result (StaysSaid self.old.is_empty self.new.is_empty) }
        ensures said { OnOk result (0 < more → self.new.is_empty ≡ false) }
        ensures status { IfOk result (λ s. s ≡ Code.Done) }
    {
        if more == 0 {
            return Ok(Status::Done);
        }
        let line = if self.json {
            number_object(self.alloc, name, more)?
        } else {
            format!(in self.alloc; "and {more} more {words}\n")?
        };
        self.push(rt, line.as_str())
    }

    /// Prints whole lines.
    pub fn push<'a, R: Print>(&mut self, rt: &R, lines: &str) -> Result<Status, Stop<'a>>
        ensures said { self.new.is_empty ≡ false }
        ensures text { OnOk result ((string_bytes self.new.text ≡ string_bytes self.old.text ++ lines.now) ⊎ (string_bytes self.new.text ≡ [])) }
        ensures status { IfOk result (λ s. s ≡ Code.Done) }
    {
        self.is_empty = false;
        self.text.push_str(lines)?;
        if self.text.len() < PIECE {
            return Ok(Status::Done);
        }
        self.end(rt)
    }

    /// Sends the lines that were not sent yet.
    pub fn end<'a, R: Print>(&mut self, rt: &R) -> Result<Status, Stop<'a>>
        ensures text { string_bytes self.new.text ≡ [] }
        ensures same { self.new.is_empty ≡ self.old.is_empty }
        ensures status { IfOk result (λ s. s ≡ Code.Done) }
    {
        let sent = send(rt, self.text.as_str());
        self.text.clear();
        sent
    }
}
