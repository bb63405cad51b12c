//! Bytes as they are printed in hex.
ghost use Rattle.std.specs.Prelude.{◌≡◌, ◌++◌, OnOk};
ghost use Rattle.std.specs.String.{string_bytes};
ghost use Rattle.hex.specs.Hex.{encode_lower};
ghost use Rattle.ods_script.specs.Texts.{block_text, without_zeros};

use ods_base::Block;
use std::alloc::AllocError;

/// Appends a block in hex, in lower case, without its trailing zeros. A block of zeros is `00`.
pub(crate) fn push_block(text: &mut String, block: &Block) -> Result<(), AllocError>
    ensures { OnOk result (string_bytes text.new ≡ string_bytes text.old ++ block_text block.now) }
{
    let bytes = trim_zeros(block.bytes());
    if bytes.is_empty() {
        return text.push_str("00");
    }
    push_hex(text, bytes)
}

/// Appends bytes in hex, in lower case.
pub(crate) fn push_hex(text: &mut String, bytes: &[u8]) -> Result<(), AllocError>
    ensures { OnOk result (string_bytes text.new ≡ string_bytes text.old ++ encode_lower bytes.now) }
{
    let alloc = *text.allocator();
    let digits = hex::encode(alloc, bytes)?;
    text.push_str(digits.as_str())
}

/// The bytes without the zeros at their end.
fn trim_zeros(bytes: &[u8]) -> &[u8]
    ensures { result.now ≡ without_zeros bytes.now }
{
    let mut kept = bytes.len();
    while kept > 0 && bytes[kept - 1] == 0 {
        kept -= 1;
    }
    &bytes[..kept]
}
