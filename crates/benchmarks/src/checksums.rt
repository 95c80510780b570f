//! The Internet checksum of texts of one length.
use crate::job::Job;
use crate::random::Random;
use ep_base::checksum::Sum16BitWords;
use std::alloc::{AllocError, Global};

/// The checksum of texts of so many bytes.
pub struct Checksums<const LEN: usize>;

impl<const LEN: usize> Job for Checksums<LEN> {
    /// It has no contract: any text would do.
    fn packet(alloc: Global, random: &mut Random) -> Result<Vec<u8>, AllocError> {
        let mut packet = Vec::new(alloc);
        random.append(LEN, &mut packet)?;
        Ok(packet)
    }

    /// It has no contract: the sum is compared with that of a plain program.
    fn sum(packet: &[u8]) -> u64 {
        let sum = Sum16BitWords::new().add_slice(packet);
        u64::from(sum.ones_complement().swap_bytes())
    }
}
