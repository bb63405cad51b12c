//! The end mark of a directory: the number of its bytes that hold entries.
ghost use Rattle.std.specs.Prelude.{◌≡◌, ◌*◌, ◌<◌};
ghost use Rattle.ods_base.specs.Block.{word, with_word};
ghost use Rattle.ods_directory.specs.Mark.{mark_in, marked};

use byteorder::{ByteOrder, LittleEndian};

/// Returns the end mark in bytes, at most the size of the mapped blocks: `(F.EFBK - 1) * 512 + F.FFBY`, or 0 if F.EFBK is 0. `attributes` are the
/// header's bytes from H.UFAT on, and `count` is the number of mapped blocks.
pub fn mark_of(attributes: &[u8; 32], count: u32) -> u64
    ensures { result ≡ mark_in attributes.now count }
{
    let high = u64::from(attribute(attributes, 4));
    let low = u64::from(attribute(attributes, 5));
    let byte = u64::from(attribute(attributes, 6));
    let block = 65536 * high + low;
    if block == 0 {
        return 0;
    }
    let mark = (block - 1) * 512 + byte;
    mark.min(512 * u64::from(count))
}

/// Returns the attributes with this end mark in F.EFBK and F.FFBY, and this count of mapped blocks in F.HIBK. F.FFBY is below 512.
pub fn with_mark(attributes: [u8; 32], mark: u64, count: u32) -> [u8; 32]
    requires { mark < 512 * 4294967295 }
    ensures { result ≡ marked attributes mark count }
{
    let block = mark / 512 + 1;
    let mut changed = attributes;
    set_attribute(&mut changed, 2, (count / 65536) as u16);
    set_attribute(&mut changed, 3, (count % 65536) as u16);
    set_attribute(&mut changed, 4, (block / 65536) as u16);
    set_attribute(&mut changed, 5, (block % 65536) as u16);
    set_attribute(&mut changed, 6, (mark % 512) as u16);
    changed
}

/// Word `k` of the attributes.
fn attribute(attributes: &[u8; 32], k: usize) -> u16
    requires { k < 16 }
    ensures { result ≡ word attributes.now k }
{
    let at = 2 * k;
    LittleEndian::read_u16(&attributes[at..])
}

/// Sets word `k` of the attributes.
fn set_attribute(attributes: &mut [u8; 32], k: usize, value: u16)
    requires { k < 16 }
    ensures { attributes.new ≡ with_word attributes.old k value }
{
    let at = 2 * k;
    LittleEndian::write_u16(&mut attributes[at..], value);
}
