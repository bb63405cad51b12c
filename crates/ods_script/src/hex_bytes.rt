//! Bytes in hex.
ghost use Rattle.std.specs.Prelude.{◌≡◌};
ghost use Rattle.ods_text.specs.One.{IsTheOne};
ghost use Rattle.ods_script.specs.Spelling.{IsHex};

use crate::spelled::Spelled;
use ods_base::Block;

/// Reads 1 to N bytes in hex, padded with zeros to N. Any other text gives `None`.
pub fn read_hex<const N: usize>(text: &[u8]) -> Option<[u8; N]>
    ensures { IsTheOne (IsHex N text.now) result }
{
    let count = text.len() / 2;
    if count == 0 {
        return None;
    }
    if count > N {
        return None;
    }
    let mut bytes = [0; N];
    match hex::decode_to_slice(text, &mut bytes[..count]) {
        Ok(()) => Some(bytes),
        Err(_) => None,
    }
}

impl<const N: usize> Spelled for [u8; N] {
    ghost use Rattle.ods_script.specs.Spelling.{IsHex};

    ghost spells = { IsHex N };

    fn read(text: &[u8]) -> Option<[u8; N]> {
        read_hex(text)
    }
}

impl Spelled for Block {
    ghost use Rattle.ods_script.specs.Spelling.{IsHex};

    ghost spells = { IsHex 512 };

    fn read(text: &[u8]) -> Option<Block> {
        match read_hex(text) {
            Some(bytes) => Some(Block::new(bytes)),
            None => None,
        }
    }
}
