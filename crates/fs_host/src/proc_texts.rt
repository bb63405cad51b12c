//! What the texts of `/proc` specify: a descriptor, a mount, a mapping and the target of a link.
ghost use Rattle.std.specs.Prelude.{◌≡◌, ◌≢◌, ◌++◌, ◌↔◌, IsTrue, MatchOption, length, take};
ghost use Rattle.fs_host.specs.ProcTexts.{IsFirstBlank, first_word, later_words, third_word, fourth_word, fifth_word, may_be_disk_file};

/// The value of a line of `/proc/PID/fdinfo/N`, if the line begins with the key.
pub fn value_of<'a>(key: &[u8], line: &'a [u8]) -> Option<&'a [u8]>
    ensures { MatchOption result (take (length key.now) line.now ≢ key.now) (λ value. line.now ≡ key.now ++ value.now) }
{
    match line.strip_prefix(key) {
        Some(value) => Some(value),
        None => None,
    }
}

/// The device of a mount, if the line of `/proc/PID/mountinfo` is about that mount.
pub fn device_of<'a>(mount: &[u8], line: &'a [u8]) -> Option<&'a [u8]>
    ensures { MatchOption result (first_word line.now ≢ mount.now) (λ device. (first_word line.now ≡ mount.now) × (device.now ≡ third_word line.now)) }
{
    if before_blank(line) != mount {
        return None;
    }
    Some(before_blank(after_blank(after_blank(line))))
}

/// Whether the line of `/proc/PID/maps` is about this inode of this device.
pub fn maps_file(device: &[u8], node: &[u8], line: &[u8]) -> bool
    ensures { IsTrue result ↔ ((fourth_word line.now ≡ device.now) × (fifth_word line.now ≡ node.now)) }
{
    let rest = after_blank(after_blank(after_blank(line)));
    before_blank(rest) == device && before_blank(after_blank(rest)) == node
}

/// Whether a descriptor with this link may be a file of a disk.
pub fn may_be_on_disk(link: &[u8]) -> bool
    ensures { result ≡ may_be_disk_file link.now }
{
    link.starts_with(b"/")
        && (!link.starts_with(b"/dev/") || link.starts_with(b"/dev/shm/"))
        && !link.starts_with(b"/proc/")
        && !link.starts_with(b"/memfd:")
}

/// The text before its first blank.
fn before_blank(text: &[u8]) -> &[u8]
    ensures { result.now ≡ first_word text.now }
{
    &text[..blank_of(text)]
}

/// The text after its first blank.
fn after_blank(text: &[u8]) -> &[u8]
    ensures { result.now ≡ later_words text.now }
{
    let place = blank_of(text);
    if place == text.len() {
        return &text[place..];
    }
    &text[place + 1..]
}

/// The index of the first blank, or the length if there is none.
fn blank_of(text: &[u8]) -> usize
    ensures { IsFirstBlank text.now result }
{
    text.iter()
        .position(|byte| *byte == b' ')
        .unwrap_or(text.len())
}
