//! A digest of results.

/// A number into which results are mixed, one after another.
#[derive(Drop)]
pub struct Digest {
    value: u64,
}

impl Digest {
    /// The digest of nothing.
    pub fn new() -> Digest {
        Digest { value: 0 }
    }

    /// Mixes in a number.
    pub fn add(&mut self, number: u64) {
        self.value = (self.value.rotate_left(5) ^ number).wrapping_mul(0x9E37_79B9_7F4A_7C15);
    }

    /// Mixes in bytes, eight at a time and the last few one by one, and then how many there are.
    pub fn add_bytes(&mut self, bytes: &[u8]) {
        let (chunks, rest) = bytes.as_chunks::<8>();
        for chunk in chunks {
            self.add(u64::from_le_bytes(*chunk));
        }
        for byte in rest {
            self.add(u64::from(*byte));
        }
        self.add(bytes.len() as u64);
    }

    /// The digest of all that was mixed in.
    pub fn value(&self) -> u64 {
        self.value
    }
}
