//! The footer after a volume, by its first bytes.
ghost use Rattle.std.specs.Prelude.{IfSome, IfNone};
ghost use Rattle.ods_container.specs.Footer.{BeginsAs};

/// A footer that an emulator stores after a volume.
#[derive(Clone, Copy, Debug, PartialEq, Eq)]
pub enum Footer {
    /// The footer of simh.
    Simh,
    /// The footer of a VHD of fixed size.
    Vhd,
}

/// Returns the footer that begins with these bytes, or `None` if there is no such footer.
pub fn footer_of(behind: &[u8]) -> Option<Footer>
    ensures some { IfSome result (BeginsAs behind.now) }
    ensures none { IfNone result ((footer : Footer) → ¬ BeginsAs behind.now footer) }
{
    if behind.starts_with(b"simh") {
        return Some(Footer::Simh);
    }
    if behind.starts_with(b"conectix") {
        return Some(Footer::Vhd);
    }
    None
}
