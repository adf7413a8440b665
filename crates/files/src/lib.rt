// Reading files up to a limit.
#![tactic(auto)]

ghost use Rattle.std.specs.Prelude.{◌≤◌, vec_len, IfOk};

use anyhow::anyhow;
use std::fs::File;
use std::io;
use std::io::{ErrorKind, Read};

// At most so much room is made before a file is read. A program reads less, so its bytes fit, with one over to find the end by.
const ROOM: usize = 65_536;

// The first bytes of a file, as many as there are, and no more than the limit.
pub fn front(rt: &HostRuntime, path: &str, limit: usize) -> io::Result<Vec<u8>>
    ensures { IfOk result (λ bytes. vec_len bytes ≤ limit) }
{
    let file = File::open(rt, path)?;
    let mut bytes = Vec::with_capacity(rt.alloc(), limit.saturating_add(1).min(ROOM))?;
    file.take(limit as u64).read_to_end(&mut bytes)?;
    // No clause of `read_to_end` tells how much a file gives, so the limit is kept here.
    bytes.truncate(limit);
    Ok(bytes)
}

// The same, for a program: an error has the name of its file.
pub fn read(rt: &HostRuntime, path: &str, limit: usize) -> anyhow::Result<Vec<u8>>
    ensures { IfOk result (λ bytes. vec_len bytes ≤ limit) }
{
    front(rt, path, limit).map_err(|error| anyhow!("{path}: {error}"))
}

// The same, where a file that is absent is empty.
pub fn read_if_present(rt: &HostRuntime, path: &str, limit: usize) -> anyhow::Result<Vec<u8>>
    ensures { IfOk result (λ bytes. vec_len bytes ≤ limit) }
{
    match front(rt, path, limit) {
        Err(error) if error.kind() == ErrorKind::NotFound => Ok(Vec::new(rt.alloc())),
        bytes => bytes.map_err(|error| anyhow!("{path}: {error}")),
    }
}

#[cfg(test)]
mod tests {
    use super::{read, read_if_present};
    use std::fs;

    // A file of five bytes, read up to three and up to nine, and one that is absent.
    #[test]
    fn bytes_up_to_the_limit(rt: HostRuntime) -> anyhow::Result<()> {
        fs::write(&rt, "five.bin", &[1, 2, 3, 4, 5])?;
        let three = read(&rt, "five.bin", 3)?;
        let five = read(&rt, "five.bin", 9)?;
        let there = read_if_present(&rt, "five.bin", 4)?;
        let absent = read_if_present(&rt, "absent.bin", 9)?;
        fs::remove_file(&rt, "five.bin")?;
        assert!(rt; three.as_slice() == [1, 2, 3].as_slice());
        assert!(rt; five.as_slice() == [1, 2, 3, 4, 5].as_slice());
        assert!(rt; there.as_slice() == [1, 2, 3, 4].as_slice());
        assert!(rt; absent.is_empty());
        assert!(rt; read(&rt, "absent.bin", 9).is_err());
        Ok(())
    }
}
