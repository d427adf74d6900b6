// Cases in a file, one text to a line: how a line writes a text with newlines and zero bytes in it.
#![tactic(auto)]

ghost use Rattle.std.specs.Prelude.{◌≡◌, IfOk};
ghost use Rattle.case_text.specs.Escapes.{unescaped};

use std::alloc::{AllocError, Global};

/// The text that a line writes: behind a backslash `n` stands for a newline and any other byte for a zero byte.
pub fn text_of_line(heap: Global, line: &str) -> Result<Vec<u8>, AllocError>
    ensures { IfOk result (λ text. text.items ≡ unescaped line.now) }
{
    let mut text = Vec::new(heap);
    let mut rest = line.as_bytes();
    loop {
        match rest {
            [] | [b'\\'] => return Ok(text),
            [b'\\', escaped, behind @ ..] => {
                text.push(if *escaped == b'n' { b'\n' } else { 0 })?;
                rest = behind;
            }
            [byte, behind @ ..] => {
                text.push(*byte)?;
                rest = behind;
            }
        }
    }
}

#[cfg(test)]
mod tests {
    use super::*;
    use std::test::Fail;

    #[test]
    fn newlines_and_zeros(rt: HostRuntime) -> Result<(), Fail> {
        let text = text_of_line(rt.alloc(), "a=1\\nb\\0c\\")?;
        assert_eq!(rt; text.as_slice(), b"a=1\nb\0c".as_slice());
        Ok(())
    }
}
