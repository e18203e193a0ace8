// Bytes that a line cannot hold are written as \n, \r, \t, \\ and \xHH.
ghost use Rattle.std.specs.Prelude.{◌<◌, length, IfSome};

use std::alloc::{AllocError, Global};

// What is no digit counts as 0.
fn digit(b: u8) -> u8
    ensures { result < 16 }
{
    match b {
        b'0'..=b'9' => b - b'0',
        b'a'..=b'f' => b - b'a' + 10,
        _ => 0,
    }
}

fn escaped(b: u8) -> u8 {
    match b {
        b'n' => b'\n',
        b'r' => b'\r',
        b't' => b'\t',
        _ => b,
    }
}

// The first byte that a line stands for, and the rest of the line; an escape that is cut off stands for none.
fn first_byte(line: &[u8]) -> Option<(u8, &[u8])>
    ensures { IfSome result (λ r. length r.1.now < length line.now) }
{
    match line {
        [b'\\', b'x', high, low, rest @ ..] => Some((16 * digit(*high) + digit(*low), rest)),
        [b'\\', b'x', ..] | [b'\\'] | [] => None,
        [b'\\', b, rest @ ..] => Some((escaped(*b), rest)),
        [b, rest @ ..] => Some((*b, rest)),
    }
}

pub fn unescaped(heap: Global, line: &[u8]) -> Result<Vec<u8>, AllocError> {
    let mut text = Vec::new(heap);
    let mut rest = line;
    while let Some((b, behind)) = first_byte(rest) {
        text.push(b)?;
        rest = behind;
    }
    Ok(text)
}
