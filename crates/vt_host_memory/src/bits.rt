//! Bytes in parts.

use std::alloc::{AllocError, Global};

/// Bytes, in parts.
pub type Bits = &'static [&'static [u8]];

/// These bytes, one part behind another.
pub fn joined(alloc: Global, parts: &[&[u8]]) -> Result<Vec<u8>, AllocError> {
    let mut all = Vec::new(alloc);
    for part in parts {
        all.extend_from_slice(part)?;
    }
    Ok(all)
}

/// Whether these bytes are the parts, one behind another.
pub fn are_joined(bytes: &[u8], parts: &[&[u8]]) -> bool {
    let mut left = bytes;
    for part in parts {
        match left.strip_prefix(*part) {
            Some(behind) => left = behind,
            None => return false,
        }
    }
    left.is_empty()
}
