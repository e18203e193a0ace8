// The files of the current folder.
use jobs::{Inputs, OpenFault, read_inputs};
use std::alloc::Global;
use std::io::{ErrorKind, Read};
use std::{fs, io};

// Only this many bytes of a file count.
const MOST_BYTES: u64 = 65_536;

// The bytes of a file that count.
fn read_start<R: Read + Drop>(file: R, alloc: Global) -> io::Result<Vec<u8>> {
    let mut text = Vec::new(alloc);
    file.take(MOST_BYTES).read_to_end(&mut text)?;
    Ok(text)
}

// A missing file is empty.
fn read_file(rt: &HostRuntime, path: &str) -> io::Result<Vec<u8>> {
    match fs::open(rt, path) {
        Ok(file) => read_start(file, rt.alloc()),
        Err(e) if e.kind() == ErrorKind::NotFound => Ok(Vec::new(rt.alloc())),
        Err(e) => Err(e),
    }
}

// What `rules.trs`, `proof.cert` and `start.term` say.
pub fn read_folder(rt: &HostRuntime) -> io::Result<Result<Inputs, OpenFault>> {
    let rules = read_file(rt, "rules.trs")?;
    let certificate = read_file(rt, "proof.cert")?;
    let start = read_file(rt, "start.term")?;
    Ok(read_inputs(&rules, &certificate, &start))
}

#[cfg(test)]
mod tests {
    use super::*;
    use std::test::Fail;

    #[test]
    fn a_missing_file_is_empty(rt: HostRuntime) -> Result<(), Fail> {
        let text = read_file(&rt, "missing")?;
        assert!(rt; text.is_empty());
        Ok(())
    }

    #[test]
    fn so_many_bytes_count(rt: HostRuntime) -> Result<(), Fail> {
        let bytes = [b'x'; 65_537];
        let text = read_start(bytes.as_slice(), rt.alloc())?;
        assert!(rt; text.len() == 65_536);
        Ok(())
    }

    #[test]
    fn a_folder_is_no_file(rt: HostRuntime) -> Result<(), Fail> {
        assert!(rt; read_file(&rt, ".").is_err());
        Ok(())
    }
}
