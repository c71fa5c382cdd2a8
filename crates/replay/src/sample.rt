// The sample as it is stored: units of 32 bits, the least byte first. A list is named by the place of its first unit, in 19 bits, and
// its length in entries, in 13. Of up to 32 numbers one unit says which are not +0, the first by the least bit, and these follow, two
// units each; a word takes one unit.

// Where a list begins, and how many entries it has.
#[derive(Clone, Copy)]
pub struct List {
    pub from: usize,
    pub length: usize,
}

impl From<u32> for List {
    fn from(name: u32) -> List {
        List {
            from: (name & 0x7_ffff) as usize,
            length: (name >> 19) as usize,
        }
    }
}

// A place in a list of numbers: where the next unit lies, and the bits of the numbers from the last one on.
#[derive(Clone, Copy)]
struct Cursor {
    at: usize,
    others: u32,
}

impl Cursor {
    // Before the first number of a list.
    fn before(list: List) -> Cursor {
        Cursor {
            at: list.from,
            others: 0,
        }
    }

    // The next unit.
    fn unit(&mut self, sample: Sample) -> u32 {
        let unit = sample.unit(self.at);
        self.at = self.at.wrapping_add(1);
        unit
    }

    // The pattern of number k, after the one before it.
    fn pattern(&mut self, sample: Sample, k: usize) -> u64 {
        if k & 31 == 0 {
            self.others = self.unit(sample);
        } else {
            self.others >>= 1;
        }
        if self.others & 1 == 0 {
            return 0;
        }
        let low = self.unit(sample);
        let high = self.unit(sample);
        u64::from(low) | u64::from(high) << 32
    }
}

// The bytes of the sample, with zeros after them. Their number is known, and four divide it, so that the compiler reads a unit by one test.
#[derive(Clone, Copy)]
pub struct Sample<'a> {
    pub bytes: &'a [u8; 700000],
}

impl Sample<'_> {
    fn byte(self, at: usize) -> u8 {
        let bytes = self.bytes;
        bytes.get(at).copied().unwrap_or(0)
    }

    pub fn unit(self, unit: usize) -> u32 {
        let at = unit << 2;
        u32::from_le_bytes([
            self.byte(at),
            self.byte(at | 1),
            self.byte(at | 2),
            self.byte(at | 3),
        ])
    }

    // Entry k of a list of words.
    pub fn word(self, list: List, k: usize) -> u32 {
        self.unit(list.from.wrapping_add(k))
    }

    // Reads a list of numbers into the start of `out`, as many as it has room for, each from its pattern, and lends them.
    fn read<'b, T: Copy, F: Fn(u64) -> T>(
        self,
        list: List,
        out: &'b mut [T],
        of_pattern: F,
    ) -> &'b mut [T]
        requires { F.IsAlwaysCallable of_pattern }
    {
        let n = list.length.min(out.len());
        let mut cursor = Cursor::before(list);
        for k in 0..n {
            out[k] = of_pattern(cursor.pattern(self, k));
        }
        &mut out[..n]
    }

    pub fn numbers<'b>(self, list: List, out: &'b mut [f64]) -> &'b mut [f64] {
        self.read(list, out, |p| total_order::number(p))
    }

    pub fn patterns<'b>(self, list: List, out: &'b mut [u64]) -> &'b mut [u64] {
        self.read(list, out, |p| p)
    }

    // The same of a list of words.
    pub fn words<'b>(self, list: List, out: &'b mut [u32]) -> &'b mut [u32] {
        let n = list.length.min(out.len());
        for k in 0..n {
            out[k] = self.word(list, k);
        }
        &mut out[..n]
    }

    // Whether `found` begins with the numbers of a list, any NaN for a NaN.
    pub fn are_numbers(self, list: List, found: &[f64]) -> bool {
        if found.len() < list.length {
            return false;
        }
        let mut cursor = Cursor::before(list);
        for k in 0..list.length {
            let number = total_order::number(cursor.pattern(self, k));
            if bits_of(number) != bits_of(found[k]) {
                return false;
            }
        }
        true
    }

    // Whether `found` begins with the words of a list.
    pub fn are_words(self, list: List, found: &[u32]) -> bool {
        match found.get(..list.length) {
            Some(first) => first
                .iter()
                .enumerate()
                .all(|(k, x)| self.word(list, k) == *x),
            None => false,
        }
    }
}

// The pattern of a number; of a NaN the quiet one without payload, since `to_bits` is not asked of NaNs.
fn bits_of(x: f64) -> u64 {
    if x.is_nan() {
        0x7ff8_0000_0000_0000
    } else {
        x.to_bits()
    }
}
