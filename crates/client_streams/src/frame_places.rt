//! Where in a client's frames its stream stands (RFC 6455, section 5.2).

/// What comes next of a frame.
#[derive(Clone, Copy, Drop)]
enum FramePart {
    /// Its first octet: whether a message ends with it.
    First,
    /// Its second octet: whether it has a mask, and how long its payload is.
    Second,
    /// So many octets of its payload's length, after those that say so much.
    Length(u8, u64),
    /// So many octets of its mask and its payload.
    Rest(u64),
}

/// The frames of a stream, as far as its octets came.
#[derive(Clone, Copy, Drop)]
pub(crate) struct Frames {
    next: FramePart,
    is_final: bool,
    // Octets of the mask.
    mask: u64,
    ended: u64,
}

impl Frames {
    /// Nothing came.
    pub(crate) fn new() -> Frames {
        Frames {
            next: FramePart::First,
            is_final: false,
            mask: 0,
            ended: 0,
        }
    }

    /// How many messages came whole, control frames among them.
    pub(crate) fn ended_count(&self) -> u64 {
        self.ended
    }

    /// These octets came.
    pub(crate) fn pass(&mut self, octets: &[u8]) {
        let mut place = 0usize;
        for _ in 0..octets.len() {
            let Some(octet) = octets.get(place) else {
                return;
            };
            let left = octets.len().saturating_sub(place);
            place = place.saturating_add(self.step(*octet, left));
        }
    }

    /// Goes on by this octet, of so many that are left, and answers how many of them it passed.
    fn step(&mut self, octet: u8, left: usize) -> usize {
        match self.next {
            FramePart::First => {
                self.is_final = octet & 0x80 != 0;
                self.next = FramePart::Second;
                1
            }
            FramePart::Second => {
                self.mask = if octet & 0x80 != 0 { 4 } else { 0 };
                match octet & 0x7F {
                    126 => self.next = FramePart::Length(2, 0),
                    127 => self.next = FramePart::Length(8, 0),
                    length => self.begin_rest(length as u64),
                }
                1
            }
            FramePart::Length(octets, high) => {
                let length = high.wrapping_mul(256).saturating_add(octet as u64);
                match octets.saturating_sub(1) {
                    0 => self.begin_rest(length),
                    others => self.next = FramePart::Length(others, length),
                }
                1
            }
            FramePart::Rest(octets) => {
                let passed = octets.min(left as u64);
                self.go_on(octets.saturating_sub(passed));
                passed as usize
            }
        }
    }

    /// The mask and a payload of this length come next.
    fn begin_rest(&mut self, length: u64) {
        self.go_on(self.mask.saturating_add(length));
    }

    /// So many octets of the frame are to come.
    fn go_on(&mut self, octets: u64) {
        if octets != 0 {
            self.next = FramePart::Rest(octets);
            return;
        }
        self.next = FramePart::First;
        if self.is_final {
            self.ended = self.ended.saturating_add(1);
        }
    }
}
