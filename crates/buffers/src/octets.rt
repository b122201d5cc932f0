//! Making, reading and filling a buffer.

ghost use Rattle.std.specs.Prelude.{◌≡◌, ◌≤◌, [], ◌∷◌, length, if◌then◌else◌, Some, None, nat_le};
ghost use Rattle.std.specs.Option.{option_map};
ghost use Rattle.buffers.specs.Buffer.{text_of, appended, padded};

use crate::buffer::Buffer;

impl<const N: usize> Buffer<N> {
    /// An empty buffer.
    pub fn new() -> Self
        ensures { text_of result ≡ [] }
    {
        Buffer {
            room: [0; N],
            len: 0,
        }
    }

    /// The octets, if they fit.
    pub fn of(octets: &[u8]) -> Option<Self>
        ensures { option_map text_of result ≡ (if nat_le (length octets.now) N then Some octets.now else None) }
    {
        if octets.len() > N {
            return None;
        }
        let mut buffer = Buffer::new();
        buffer.extend(octets);
        Some(buffer)
    }

    /// How many octets there are.
    pub fn len(&self) -> usize
        ensures value { result ≡ length (text_of self.now) }
        ensures within { result ≤ N }
    {
        self.as_slice().len()
    }

    /// The octets.
    pub fn as_slice(&self) -> &[u8]
        ensures value { result.now ≡ text_of self.now }
        ensures within { length (text_of self.now) ≤ N }
    {
        &self.room[..self.len]
    }

    /// The octets, and zeros behind them.
    pub fn as_array(&self) -> &[u8; N]
        ensures { result.now ≡ padded N (text_of self.now) }
    {
        &self.room
    }

    /// Takes all octets out.
    pub fn clear(&mut self)
        ensures { text_of self.new ≡ [] }
    {
        self.room[..self.len].fill(0);
        self.len = 0;
    }

    /// Appends one octet, if there is room.
    pub fn push(&mut self, octet: u8)
        ensures { text_of self.new ≡ appended N (text_of self.old) (octet ∷ []) }
    {
        if self.len < N {
            self.room[self.len] = octet;
            self.len += 1;
        }
    }

    /// Appends as many of the octets as there is room for.
    pub fn extend(&mut self, octets: &[u8])
        ensures { text_of self.new ≡ appended N (text_of self.old) octets.now }
    {
        let start = self.len;
        let room = &mut self.room[..];
        let end = room.len().min(start + octets.len());
        room[start..end].copy_from_slice(&octets[..end - start]);
        self.len = end;
    }
}
