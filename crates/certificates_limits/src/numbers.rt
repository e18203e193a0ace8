// Numbers on a line.
ghost use Rattle.std.specs.Prelude.{◌≤◌};

use std::alloc::{AllocError, Global};

// Those of at most 255, with blanks between them.
pub fn numbers_in(heap: Global, text: &str, radix: u32) -> Result<Vec<u8>, AllocError>
    requires low { 2 ≤ radix }
    requires high { radix ≤ 36 }
{
    let mut numbers = Vec::new(heap);
    for word in text.split_whitespace() {
        if let Ok(number) = u8::from_str_radix(word, radix) {
            numbers.push(number)?;
        }
    }
    Ok(numbers)
}
