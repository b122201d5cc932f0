//! Octets in fixed memory.

#![tactic(auto, unfolding(crate::specs::Buffer::text_of, crate::specs::Buffer::appended))]

mod buffer;
mod octets;

pub use buffer::Buffer;

#[cfg(test)]
mod tests {
    use super::*;

    #[test]
    fn appending(rt: HostRuntime) {
        let mut buffer = Buffer::<4>::new();
        assert_eq!(rt; buffer.len(), 0);
        assert!(rt; buffer.as_slice().is_empty());
        buffer.extend(&[]);
        assert_eq!(rt; buffer.len(), 0);
        buffer.push(1);
        buffer.extend(&[2, 3]);
        assert!(rt; buffer.as_slice() == [1, 2, 3].as_slice());
        assert!(rt; *buffer.as_array() == [1, 2, 3, 0]);
    }

    #[test]
    fn appending_to_a_full_buffer(rt: HostRuntime) {
        let mut buffer = Buffer::<4>::new();
        buffer.push(1);
        buffer.extend(&[2, 3, 4, 5, 6]);
        assert!(rt; buffer.as_slice() == [1, 2, 3, 4].as_slice());
        buffer.push(7);
        buffer.extend(&[8]);
        assert_eq!(rt; buffer.len(), 4);
        assert!(rt; *buffer.as_array() == [1, 2, 3, 4]);
        buffer.clear();
        assert_eq!(rt; buffer, Buffer::new());
        assert!(rt; *buffer.as_array() == [0, 0, 0, 0]);
        let mut none = Buffer::<0>::new();
        none.push(1);
        assert_eq!(rt; none.len(), 0);
    }

    #[test]
    fn octets_that_fit(rt: HostRuntime) {
        let mut buffer = Buffer::<2>::new();
        assert_eq!(rt; Buffer::of(&[]), Some(buffer));
        buffer.extend(&[1, 2]);
        assert_eq!(rt; Buffer::of(&[1, 2]), Some(buffer));
        assert!(rt; Buffer::<2>::of(&[1, 2, 3]).is_none());
        assert!(rt; Buffer::<2>::of(&[1]) != Some(buffer));
    }
}
