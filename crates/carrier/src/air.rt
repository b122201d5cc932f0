//! What lies between a sender and a reader.

/// Carries blocks from a sender to a reader. It may flip any chips.
pub trait Air {
    /// Carries one block: whatever it leaves in the octets arrives.
    fn carry(&mut self, block: &mut [u8]);
}
