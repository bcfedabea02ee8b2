// The bytes of a file as a line of words: each is hexadecimal digits HEX in lower case, or HEX*N for N times those
// bytes. The empty file is `e`.
use anyhow::{anyhow, ensure};
use hex::FromHexError;
use std::alloc::{AllocError, Global};

pub fn read_case(heap: Global, line: &str) -> anyhow::Result<Vec<u8>> {
    let mut file = Vec::new(heap);
    if line == "e" {
        return Ok(file);
    }
    for word in line.split(' ') {
        let (digits, times) = match word.split_once('*') {
            Some((digits, times)) => (digits, times.parse::<usize>()?),
            None => (word, 1),
        };
        let bytes = read_hex(heap, digits)?;
        // A word without digits adds nothing, however often. Others are added one time after another, and not by the
        // library's `repeat`: what it makes would be held beside the file, as much again.
        let times = if bytes.is_empty() { 0 } else { times };
        for _ in 0..times {
            file.extend_from_slice(bytes.as_slice())?;
        }
    }
    Ok(file)
}

// The bytes of a word's digits. Of two faults that of a digit is told, and not that half a byte is left at the end.
fn read_hex(heap: Global, digits: &str) -> anyhow::Result<Vec<u8>> {
    let whole = digits.len() - digits.len() % 2;
    let known = digits.as_bytes()[..whole].iter().fold(true, |known, b| {
        known & b.is_ascii_hexdigit() & !b.is_ascii_uppercase()
    });
    ensure!(known, "a word has a byte that is no digit");
    match hex::decode(heap, digits) {
        Ok(bytes) => Ok(bytes),
        Err(FromHexError::OutOfMemory) => Err(AllocError.into()),
        Err(_) => Err(anyhow!("a word has half a byte")),
    }
}
