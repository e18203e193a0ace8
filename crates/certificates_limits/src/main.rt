// Reads certificates from standard input, one to a line, and prints what each comes to: its parts, or its refusal. A line
// `symbols` gives the arities of a signature, a line `bytes` a certificate over the last of them, in hexadecimal. A line
// that begins with # is printed.
#![tactic(auto)]

mod numbers;
mod shown;

use certificates::read_certificate;
use numbers::numbers_in;
use shown::print_parts;
use std::io;
use terms::Signature;

fn answer(rt: &HostRuntime, signature: &Signature, bytes: &[u8]) -> io::Result<()> {
    match read_certificate(signature, bytes) {
        Ok(certificate) => print_parts(rt, signature, &certificate),
        Err(fault) => println!(rt; "{fault}"),
    }
}

fn main(rt: HostRuntime) -> io::Result<()> {
    let mut last = None;
    for line in rt.lines(rt.alloc()) {
        let line = line?;
        let text = line.as_str();
        if let Some(arities) = text.strip_prefix("symbols") {
            last = Signature::new(&numbers_in(rt.alloc(), arities, 10)?).ok();
        } else if let Some(bytes) = text.strip_prefix("bytes") {
            let bytes = numbers_in(rt.alloc(), bytes, 16)?;
            match &last {
                Some(signature) => answer(&rt, signature, &bytes)?,
                None => println!(rt; "no signature")?,
            }
        } else {
            println!(rt; "{text}")?;
        }
    }
    Ok(())
}
