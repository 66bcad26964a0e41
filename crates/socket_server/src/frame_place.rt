// Where in a frame a stream stands.
ghost use Rattle.std.specs.Prelude.{◌<◌};

/// How many bytes of a frame's length were passed and what they say, or how many of the bytes that
/// they count are left. Where a length is none, the session ends.
#[derive(Drop)]
pub(crate) struct FramePlace {
    known: u32,
    length: u32,
    left: usize,
    ghost short: { known < 4 },
}

impl FramePlace {
    /// Where a stream begins.
    pub(crate) fn start() -> FramePlace {
        FramePlace {
            known: 0,
            length: 0,
            left: 0,
        }
    }

    /// Whether some bytes of a frame were passed, and not all.
    pub(crate) fn is_inside(&self) -> bool {
        self.known > 0 || self.left > 0
    }

    /// Passes some bytes; whether a frame begins there.
    pub(crate) fn pass(&mut self, bytes: &[u8]) -> bool {
        let mut begins = false;
        let mut rest = bytes;
        for _ in 0..bytes.len() {
            let Some((first, behind)) = rest.split_first() else {
                break;
            };
            if self.left == 0 {
                begins = begins || self.known == 0;
                self.pass_length(*first);
                rest = behind;
            } else {
                let count = self.left.min(rest.len());
                self.left -= count;
                rest = &rest[count..];
            }
        }
        begins
    }

    // Passes a byte of a length.
    fn pass_length(&mut self, byte: u8) {
        let length = self.length << 8 | byte as u32;
        if self.known < 3 {
            self.known += 1;
            self.length = length;
        } else {
            *self = FramePlace {
                known: 0,
                length: 0,
                left: length as usize,
            };
        }
    }
}
