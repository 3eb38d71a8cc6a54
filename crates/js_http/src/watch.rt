//! When a head that comes piece by piece is worth a parse.

/// Where the lines of a head end, as its bytes come. A head ends with an empty line after another line.
#[derive(Clone, Copy)]
pub(crate) struct Watch {
    /// A line that is not empty has begun.
    begun: bool,
    /// The line so far is empty.
    empty: bool,
    /// The head's empty line came.
    ended: bool,
    /// How many bytes there have to be for a parse that is due although that line did not come.
    due: usize,
}

impl Watch {
    /// Nothing came yet.
    pub(crate) fn new() -> Watch {
        Watch {
            begun: false,
            empty: true,
            ended: false,
            due: 1,
        }
    }

    /// Notes what came.
    pub(crate) fn note(&mut self, came: &[u8]) {
        for byte in came {
            match *byte {
                b'\n' => {
                    self.ended = self.ended || (self.begun && self.empty);
                    self.empty = true;
                }
                b'\r' => {}
                _ => {
                    self.begun = true;
                    self.empty = false;
                }
            }
        }
    }

    /// Whether the bytes, of which there are `len`, are worth a parse: where the head's end came, and each time that
    /// their number has doubled. So all parses together cost what the bytes do.
    pub(crate) fn is_due(&mut self, len: usize) -> bool {
        if self.ended || len >= self.due {
            self.ended = false;
            self.due = len.saturating_mul(2);
            true
        } else {
            false
        }
    }
}
