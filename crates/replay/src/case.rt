// A case: its head, the lists that the call is handed, and the lists as they are afterwards. The head has the call in 8 bits, the
// number answered in 8, how many lists of numbers there are in 4, of patterns in 4, of words in 4. The lists stand in this order;
// afterwards those of patterns are left out, which no call writes.
use crate::sample::{List, Sample};
use refusals::Refusal;

// A case by its place in the sample.
#[derive(Clone, Copy)]
pub struct Head<'a> {
    pub sample: Sample<'a>,
    pub at: usize,
}

// The lowest 4 bits as a number of lists.
fn lists(counts: u32) -> usize {
    (counts & 0xf) as usize
}

impl Head<'_> {
    fn head(self) -> u32 {
        self.sample.unit(self.at)
    }

    // The number of the call that the case makes.
    pub fn call(self) -> u32 {
        self.head() & 0xff
    }

    // Whether its answer is this.
    pub fn answers(self, answer: Result<(), Refusal>) -> bool {
        self.head() >> 8 & 0xff == refusals::told(answer)
    }

    // How many lists of each kind it hands in.
    pub fn numbers_count(self) -> usize {
        lists(self.head() >> 16)
    }

    fn patterns_count(self) -> usize {
        lists(self.head() >> 20)
    }

    fn words_count(self) -> usize {
        lists(self.head() >> 24)
    }

    // Where its lists of numbers begin, those of patterns, those of words.
    fn numbers_from(self) -> usize {
        self.at.wrapping_add(1)
    }

    fn patterns_from(self) -> usize {
        self.numbers_from().wrapping_add(self.numbers_count())
    }

    fn words_from(self) -> usize {
        self.patterns_from().wrapping_add(self.patterns_count())
    }

    // Where it has its lists of numbers as they are afterwards, and those of words.
    fn later_numbers_from(self) -> usize {
        self.words_from().wrapping_add(self.words_count())
    }

    fn later_words_from(self) -> usize {
        self.later_numbers_from().wrapping_add(self.numbers_count())
    }

    // The next case.
    pub fn next(self) -> Self {
        Head {
            sample: self.sample,
            at: self.later_words_from().wrapping_add(self.words_count()),
        }
    }

    fn list(self, from: usize, k: usize) -> List {
        List::from(self.sample.unit(from.wrapping_add(k)))
    }

    // List k of the numbers that it hands in, and the same list as it is afterwards.
    pub fn numbers(self, k: usize) -> List {
        self.list(self.numbers_from(), k)
    }

    fn later_numbers(self, k: usize) -> List {
        self.list(self.later_numbers_from(), k)
    }

    // List k of some lists of words; none, which is empty, past their number.
    fn words_of(self, from: usize, k: usize) -> List {
        if k < self.words_count() {
            self.list(from, k)
        } else {
            List::from(0)
        }
    }

    // List k of the words that it hands in, and the same list as it is afterwards.
    pub fn words(self, k: usize) -> List {
        self.words_of(self.words_from(), k)
    }

    fn later_words(self, k: usize) -> List {
        self.words_of(self.later_words_from(), k)
    }

    // The list of patterns that it hands in; none where it has no such list.
    pub fn patterns(self) -> List {
        if self.patterns_count() == 0 {
            List::from(0)
        } else {
            self.list(self.patterns_from(), 0)
        }
    }
}

// Lays out the lists of numbers that a case hands in, list k from place k * 2^13 on, since a list has fewer than 2^13 entries.
pub fn lay(head: Head, out: &mut [f64]) {
    for k in 0..head.numbers_count() {
        let from = (k << 13).min(out.len());
        head.sample.numbers(head.numbers(k), &mut out[from..]);
    }
}

// A case with the lists that its call is handed, of the words the second.
#[derive(Clone, Copy)]
pub struct Case<'a> {
    pub head: Head<'a>,
    pub laid: &'a [f64],
    pub patterns: &'a [u64],
    pub words: &'a [u32],
}

impl<'a> Case<'a> {
    // Whether its answer is this.
    pub fn answers(self, answer: Result<(), Refusal>) -> bool {
        self.head.answers(answer)
    }

    // List k of the numbers.
    pub fn numbers(self, k: usize) -> &'a [f64] {
        let laid = self.laid;
        let from = (k << 13).min(laid.len());
        let rest = &laid[from..];
        let n = self.head.numbers(k).length.min(rest.len());
        &rest[..n]
    }

    // The number that list k is.
    pub fn number(self, k: usize) -> f64 {
        let laid = self.laid;
        laid.get(k << 13).copied().unwrap_or(0.0)
    }

    // The word that list k of the words is.
    pub fn word(self, k: usize) -> u32 {
        self.head.sample.word(self.head.words(k), 0)
    }

    // List k of the words, read into `out`, and list k of the numbers, for a call to write.
    pub fn read_words<'b>(self, k: usize, out: &'b mut [u32]) -> &'b mut [u32] {
        self.head.sample.words(self.head.words(k), out)
    }

    pub fn written<'b>(self, k: usize, out: &'b mut [f64]) -> &'b mut [f64] {
        self.head.sample.numbers(self.head.numbers(k), out)
    }

    // Whether list k of the numbers, which `found` begins with, is what it should be.
    pub fn left(self, k: usize, found: &[f64]) -> bool {
        let list = self.head.later_numbers(k);
        list.length == self.head.numbers(k).length && self.head.sample.are_numbers(list, found)
    }

    // The same of list k of the words.
    pub fn left_words(self, k: usize, found: &[u32]) -> bool {
        let list = self.head.later_words(k);
        list.length == self.head.words(k).length && self.head.sample.are_words(list, found)
    }

    // Whether list k of the numbers should be this one.
    pub fn left_number(self, k: usize, found: f64) -> bool {
        self.left(k, &[found])
    }

    // Whether list k of the words should be this one.
    pub fn left_word(self, k: usize, found: u32) -> bool {
        self.left_words(k, &[found])
    }

    // Whether the lists of numbers before list `end` should be as they were handed in.
    pub fn kept(self, end: usize) -> bool {
        (0..end).all(|k| self.left(k, self.numbers(k)))
    }

    // Whether the answer is right, and the lists of numbers up to list k, which was written, are.
    pub fn wrote(self, answer: Result<(), Refusal>, k: usize, list: &[f64]) -> bool {
        self.answers(answer) && self.kept(k) && self.left(k, list)
    }
}
