// Lines: a text, perhaps a number, and a newline.
ghost use Rattle.std.specs.Prelude.{◌≡◌, ◌++◌, OnOk};
ghost use Rattle.report.specs.Texts.{line, numbered};

use itoa::Buffer;
use std::alloc::AllocError;

/// Adds a line of the text.
pub fn line(text: &[u8], out: &mut Vec<u8>) -> Result<(), AllocError>
    ensures { OnOk result (out.new.items ≡ out.old.items ++ line text.now) }
{
    out.extend_from_slice(text)?;
    out.push(b'\n')?;
    Ok(())
}

/// Adds a line of the text and the number.
pub fn numbered(text: &[u8], number: u128, out: &mut Vec<u8>) -> Result<(), AllocError>
    ensures { OnOk result (out.new.items ≡ out.old.items ++ numbered text.now number) }
{
    let mut buffer = Buffer::new();
    out.extend_from_slice(text)?;
    out.extend_from_slice(buffer.format(number).as_bytes())?;
    out.push(b'\n')?;
    Ok(())
}
