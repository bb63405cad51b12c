//! The operations that saving needs of a host.
use ods_base::Image;

/// A folder of the host, in which files are made under hidden names until they take their own.
///
/// No clause states that a host keeps the bytes that it is given: only bytes that are read back are known.
pub trait Folder {
    ghost use Rattle.std.specs.Prelude.{ℕ, List, [], ◌++◌, Option, Some, None, ◌≡◌, ◌⊎◌, IfOk, OnOk, IfErr, OnErr, IsTrue, IsFalse};
    ghost use Rattle.ods_base.specs.Image.{image_bytes};
    ghost use Rattle.fs_saving.specs.Folder.{Stays, OthersStay, RestStays, Moves, Lasts, OthersLast, LastsOrTakes, Gains, EndsStay};

    /// A file that was made in the folder, and is open.
    type File: Drop;

    /// The reason why the host does not carry out a call.
    type Fault: Drop;

    /// A name holds these bytes, or no file. For a host about which nothing is known, each name holds any content.
    ghost has: { Self → List ℕ → Option (List ℕ) → Type 0 };

    /// A name held these bytes, or no file, at some moment up to now.
    ghost had: { Self → List ℕ → Option (List ℕ) → Type 0 };

    /// A name holds one content at a time. For a host about which nothing is known, this is not known.
    ghost knows: { Type 0 };

    /// The name under which a file was made.
    ghost hidden: { Self.File → List ℕ };

    /// All that was written to a file is on the disk.
    ghost is_synced: { Self.File → Type 0 };

    /// A file was given these bytes in all.
    ghost given: { Self.File → List ℕ → Type 0 };

    /// A call may fail with this fault.
    ghost may_end: { Self → Self.Fault → Type 0 };

    /// A call has failed, or a file did not keep the given bytes.
    ghost has_failed: { Self → Type 0 };

    /// A hidden name could not be removed.
    ghost has_left: { Self → Type 0 };

    /// Makes an empty file under this name. A hidden file that an earlier run left under the name may be deleted.
    fn make(&mut self, name: &str) -> Result<Self::File, Self::Fault>
        ensures named { IfOk result (λ file. hidden file ≡ name.now) }
        ensures unwritten { IfOk result (λ file. given file []) }
        ensures empty { OnOk result (has self.new name.now (Some [])) }
        ensures why { IfErr result (may_end self.old) }
        ensures cause { OnErr result (has_failed self.new) }
        ensures others { OthersStay (has self.old) (has self.new) name.now }
        ensures moments { OthersLast (had self.old) (had self.new) name.now }
        ensures ends { EndsStay (may_end self.old) (may_end self.new) };

    /// Appends an image, and `behind` after it, to the file. The contents of the file are then known only by reading it back.
    fn write(
        &mut self,
        file: &mut Self::File,
        image: &Image,
        behind: &[u8],
    ) -> Result<(), Self::Fault>
        ensures named { hidden file.new ≡ hidden file.old }
        ensures given { OnOk result (Gains (given file.old) (given file.new) (image_bytes image.now ++ behind.now)) }
        ensures why { IfErr result (may_end self.old) }
        ensures cause { OnErr result (has_failed self.new) }
        ensures others { OthersStay (has self.old) (has self.new) (hidden file.old) }
        ensures moments { OthersLast (had self.old) (had self.new) (hidden file.old) }
        ensures ends { EndsStay (may_end self.old) (may_end self.new) };

    /// Waits until all written bytes of the file are on the disk.
    fn sync(&mut self, file: &mut Self::File) -> Result<(), Self::Fault>
        ensures named { hidden file.new ≡ hidden file.old }
        ensures synced { OnOk result (is_synced file.new) }
        ensures given { (bytes : List ℕ) → given file.old bytes → given file.new bytes }
        ensures why { IfErr result (may_end self.old) }
        ensures cause { OnErr result (has_failed self.new) }
        ensures names { (name : List ℕ) → Stays (has self.old) (has self.new) name }
        ensures moments { (name : List ℕ) → Lasts (had self.old) (had self.new) name }
        ensures ends { EndsStay (may_end self.old) (may_end self.new) };

    /// Reads the file back, and returns whether it has exactly the bytes of this image, followed by `behind`.
    fn holds(&mut self, file: &mut Self::File, image: &Image, behind: &[u8]) -> bool
        ensures named { hidden file.new ≡ hidden file.old }
        ensures synced { is_synced file.old → is_synced file.new }
        ensures read { IsTrue result → has self.new (hidden file.old) (Some (image_bytes image.now ++ behind.now)) }
        ensures alone { IsTrue result → knows → (held : Option (List ℕ)) → has self.new (hidden file.old) held → held ≡ Some (image_bytes image.now ++ behind.now) }
        ensures differs { IsFalse result → given file.old (image_bytes image.now ++ behind.now) → has_failed self.new }
        ensures names { (name : List ℕ) → Stays (has self.old) (has self.new) name }
        ensures moments { (name : List ℕ) → Lasts (had self.old) (had self.new) name }
        ensures ends { EndsStay (may_end self.old) (may_end self.new) };

    /// Renames the file from its hidden name to this name. A file that has the name is replaced, or the call fails. A call that fails may have
    /// renamed it.
    fn rename(&mut self, file: &mut Self::File, name: &str) -> Result<(), Self::Fault>
        requires { is_synced file.old }
        ensures named { hidden file.new ≡ hidden file.old }
        ensures ok { OnOk result (Moves (has self.old) (has self.new) (hidden file.old) name.now) }
        ensures err { OnErr result (Stays (has self.old) (has self.new) name.now ⊎ Moves (has self.old) (has self.new) (hidden file.old) name.now) }
        ensures why { IfErr result (may_end self.old) }
        ensures cause { OnErr result (has_failed self.new) }
        ensures moments { LastsOrTakes (had self.old) (had self.new) (has self.old) name.now (hidden file.old) }
        ensures others { RestStays (has self.old) (has self.new) name.now (hidden file.old) }
        ensures ends { EndsStay (may_end self.old) (may_end self.new) };

    /// Removes the hidden name, and returns whether it is gone.
    fn remove(&mut self, file: Self::File) -> bool
        ensures gone { IsTrue result → has self.new (hidden file) None }
        ensures left { IsFalse result → has_left self.new }
        ensures failed { has_failed self.old → has_failed self.new }
        ensures others { OthersStay (has self.old) (has self.new) (hidden file) }
        ensures moments { OthersLast (had self.old) (had self.new) (hidden file) };

    /// The present moment counts as a moment up to now.
    ghost counts_now: { (folder : Self) (name : List ℕ) (held : Option (List ℕ)) → has folder name held → had folder name held };
}
