// The blobs of every manifest that is played, whatever names it gives them.

/// Their bytes, as the files of these names have them beside the rows, for who reads these.
pub const BLOBS: [&[u8]; 2] = [b"0123456789", b""];

/// The bytes of one from a place on, so many or else all, for the slow reference.
pub fn part_of_blob(number: u32, start: u32, size: Option<u32>) -> Option<&'static [u8]> {
    let bytes: &'static [u8] = match number {
        0 => BLOBS[0],
        1 => BLOBS[1],
        _ => return None,
    };
    let start = start as usize;
    let most = bytes.len().saturating_sub(start);
    let count = match size {
        Some(size) => size as usize,
        None => most,
    };
    if start > bytes.len() || count > most {
        return None;
    }
    Some(&bytes[start..start + count])
}
