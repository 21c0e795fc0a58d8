//! Bytes that are read from the front.

/// The words that are no names.
const RESERVED: &str =
    "and or not if true false len abs starts least most from where select distinct group with join on concat order desc as end int text bool";

/// The greatest number of four bytes.
pub const MAX_WORD: u64 = 4_294_967_295;

/// Bytes, and how many of them were read. Where a byte can't be what is asked for, reading stops there for good;
/// numbers that are asked for behind that are the least that they may be, and bytes and names are empty.
#[derive(Clone, Copy)]
pub struct Reader<'a> {
    bytes: &'a [u8],
    at: usize,
    is_stopped: bool,
}

impl<'a> Reader<'a> {
    pub fn new(bytes: &'a [u8]) -> Reader<'a> {
        Reader {
            bytes,
            at: 0,
            is_stopped: false,
        }
    }

    /// How many bytes were read.
    pub fn at(&self) -> usize {
        self.at
    }

    pub fn is_stopped(&self) -> bool {
        self.is_stopped
    }

    /// Where the bytes aren't what was asked for: where reading stopped, or at the first byte behind.
    pub fn place(&self) -> Option<usize> {
        if self.is_stopped || self.at < self.bytes.len() {
            Some(self.at)
        } else {
            None
        }
    }

    /// What is left to read.
    pub fn rest(&self) -> &'a [u8] {
        self.bytes.get(self.at..).unwrap_or(b"")
    }

    /// Stops at this byte, unless reading has stopped.
    pub fn stop_at(&mut self, place: usize) {
        if !self.is_stopped {
            self.at = place;
            self.is_stopped = true;
        }
    }

    fn skip(&mut self, count: usize) {
        if !self.is_stopped {
            self.at = self.at.saturating_add(count);
        }
    }

    /// A number of so many bytes, the highest first, from the least to the greatest.
    pub fn number(&mut self, len: u32, least: u64, greatest: u64) -> u64 {
        let mut number = 0u64;
        for left in (0..len).rev() {
            let shift = left.wrapping_mul(8);
            number = number.wrapping_mul(256) | self.peek();
            let is_within = least.wrapping_shr(shift) <= number
                && number <= greatest.wrapping_shr(shift);
            if self.is_stopped || self.rest().is_empty() || !is_within {
                self.is_stopped = true;
                return least;
            }
            self.skip(1);
        }
        number
    }

    // The next byte, or 0.
    fn peek(&self) -> u64 {
        self.rest().first().map_or(0, |byte| u64::from(*byte))
    }

    /// A number of four bytes.
    pub fn word(&mut self) -> u64 {
        self.number(4, 0, MAX_WORD)
    }

    /// So many bytes.
    pub fn taken(&mut self, len: u64) -> &'a [u8] {
        let rest = self.rest();
        match rest.get(..len as usize) {
            Some(bytes) if !self.is_stopped => {
                self.skip(bytes.len());
                bytes
            }
            _ => {
                self.stop_at(self.bytes.len());
                b""
            }
        }
    }

    /// The bytes of cuts behind their count.
    pub fn cuts(&mut self) -> &'a [u8] {
        let count = self.number(1, 0, 255);
        self.taken(count.wrapping_mul(8))
    }

    /// A name that isn't below the other one.
    pub fn name(&mut self, other: &[u8]) -> &'a [u8] {
        let begin = self.at;
        let len = self.number(1, 1, 64) as usize;
        if !may_reach(b"", len, other) {
            self.stop_at(begin);
        }
        let rest = self.rest();
        for count in 1..=len {
            match rest.get(..count) {
                Some(front) if begins_name(front, len, other) => self.skip(1),
                _ => self.is_stopped = true,
            }
        }
        match rest.get(..len) {
            Some(name) if !self.is_stopped => name,
            _ => b"",
        }
    }

    /// A text of at most 1,000 bytes behind its length.
    pub fn text(&mut self) {
        let len = self.number(4, 0, 1000) as usize;
        let end = self.at.saturating_add(len);
        for _ in 0..len {
            if self.at < end && !self.is_stopped {
                self.character(end);
            }
        }
    }

    // A character of a text that ends there.
    fn character(&mut self, end: usize) {
        let begin = self.at;
        let (count, least, greatest) = match self.number(1, 0x20, 0xF4) {
            0x20..=0x7F => (0, 0, 0),
            0xC2..=0xDF => (1, 0x80, 0xBF),
            0xE0 => (2, 0xA0, 0xBF),
            0xED => (2, 0x80, 0x9F),
            0xE1..=0xEF => (2, 0x80, 0xBF),
            0xF0 => (3, 0x90, 0xBF),
            0xF1..=0xF3 => (3, 0x80, 0xBF),
            0xF4 => (3, 0x80, 0x8F),
            _ => (end, 0, 0),
        };
        if self.at.saturating_add(count) > end {
            self.stop_at(begin);
        }
        for place in 0..count.min(3) {
            if place == 0 {
                self.number(1, least, greatest);
            } else {
                self.number(1, 0x80, 0xBF);
            }
        }
    }
}

// Whether a name of this length that isn't below the other one may begin so.
fn begins_name(front: &[u8], len: usize, other: &[u8]) -> bool {
    let is_reserved = RESERVED.split(' ').any(|word| word.as_bytes() == front);
    front.first().is_some_and(|byte| byte.is_ascii_lowercase())
        && front
            .iter()
            .all(|byte| matches!(byte, b'a'..=b'z' | b'0'..=b'9' | b'_'))
        && !(is_reserved && front.len() == len)
        && may_reach(front, len, other)
}

// Whether these bytes, with so many `z` behind them that they have this length, aren't below the other ones.
fn may_reach(front: &[u8], len: usize, other: &[u8]) -> bool {
    for (place, least) in other.iter().enumerate() {
        let byte = front.get(place).unwrap_or(&b'z');
        if place >= len || byte < least {
            return false;
        }
        if byte > least {
            return true;
        }
    }
    true
}
