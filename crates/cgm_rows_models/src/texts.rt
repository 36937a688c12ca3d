// Texts that are long because a line of them repeats.
use cgm_base::OutOfMemory;
use std::alloc::Global;

/// The front, and behind it the line, again and again.
pub(crate) fn repeated(
    alloc: Global,
    front: &str,
    line: &str,
    count: u32,
) -> Result<Vec<u8>, OutOfMemory> {
    let mut text = Vec::from_slice(alloc, front.as_bytes())?;
    for _ in 0..count {
        text.extend_from_slice(line.as_bytes())?;
    }
    Ok(text)
}

/// Adds a number with what stands before and behind it.
fn push_numbered(
    alloc: Global,
    text: &mut Vec<u8>,
    (head, tail): (&str, &str),
    number: u32,
) -> Result<(), OutOfMemory> {
    let line = format!(in alloc; "{head}{number}{tail}")?;
    text.extend_from_slice(line.as_bytes())
}

/// Adds the numbers from 0 on, each with what stands before and behind it.
pub(crate) fn push_all_numbered(
    alloc: Global,
    text: &mut Vec<u8>,
    around: (&str, &str),
    count: u32,
) -> Result<(), OutOfMemory> {
    for number in 0..count {
        push_numbered(alloc, text, around, number)?;
    }
    Ok(())
}

/// The front, and behind it so many bytes, each the same.
pub(crate) fn padded(
    alloc: Global,
    front: &str,
    byte: u8,
    count: usize,
) -> Result<Vec<u8>, OutOfMemory> {
    let mut text = Vec::from_slice(alloc, front.as_bytes())?;
    let rest = vec![in alloc; byte; count]?;
    text.extend_from_slice(rest.as_slice())?;
    Ok(text)
}
