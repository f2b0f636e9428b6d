//! The order of addresses, as one number.

/// A number that shows, almost certainly, which addresses came and in which order.
#[derive(Drop)]
pub struct Digest {
    pub value: u64,
}

impl Digest {
    /// Returns the digest of no addresses.
    pub fn new() -> Self {
        Digest { value: 0 }
    }

    /// Adds the length and the last index of an address.
    pub fn add(&mut self, address: &[usize]) {
        for number in [address.len(), address.last().copied().unwrap_or(0)] {
            self.value = self.value.wrapping_mul(31).wrapping_add(number as u64);
        }
    }
}
