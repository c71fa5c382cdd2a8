// Block maps: where each frame of a factor goes in the Hessian, and maps read through index lists.
#![tactic(auto)]

pub mod target;

ghost use Rattle.std.specs.Prelude.{◌≡◌, false, length};
ghost use Rattle.refusals.specs.Refusal.{Answered};
ghost use Rattle.refusals.specs.Number.{number};
ghost use Rattle.normal_blocks.specs.Map.{place_of, bad_word, bad_words, word_at, lookup, remapped, exceeds, some_exceeds};
ghost use Rattle.normal_blocks.specs.Calls.{bad_target, map_refusal, remap_refusal};

use refusals::Refusal;

// The word of a frame that goes nowhere.
pub const UNMAPPED: u32 = 0x4000_0000;

// The most words of a map.
pub const MOST_WORDS: usize = 1024;

// The highest order of a Hessian.
pub const MOST_ROWS: usize = 1024;

// What a word says: the offset in the Hessian at which a frame goes there, or that it goes nowhere.
pub fn place_of(w: u32) -> Option<usize>
    ensures { result ≡ place_of w }
{
    if w < UNMAPPED { Some(w as usize) } else { None }
}

// Where frame k goes.
pub fn lookup(map: &[u32], k: usize) -> Option<usize>
    ensures { result ≡ lookup map.now k }
{
    if k < map.len() {
        place_of(map[k])
    } else {
        None
    }
}

// Reason 9 of one word.
fn bad_word(w: u32) -> bool
    ensures { result ≡ bad_word w }
{
    w > UNMAPPED
}

// Reason 9: some word is bad. Every word is looked at, which is faster than to stop at the first bad one.
pub fn bad_words(words: &[u32]) -> bool
    ensures { result ≡ bad_words words.now }
{
    let mut bad = false;
    for k in 0..words.len() {
        bad = bad | bad_word(words[k]);
    }
    bad
}

// Reason 10 of one frame.
pub fn exceeds(p: Option<usize>, width: usize, n: usize) -> bool
    ensures { result ≡ exceeds n width p }
{
    match p {
        Some(offset) => {
            if n < width {
                return true;
            }
            n - width < offset
        }
        None => false,
    }
}

// Reason 10: some frame below `count` exceeds the order n.
pub fn some_exceeds(map: &[u32], count: usize, width: usize, n: usize) -> bool
    ensures { result ≡ some_exceeds n (λ k. width) (lookup map.now) count }
{
    (0..count).any(|k| exceeds(lookup(map, k), width, n))
}

// Reason 3 of a call that adds to a Hessian of so many cells and a gradient of n by a map of so many words.
pub fn bad_target(words: usize, cells: usize, n: usize) -> bool
    ensures { result ≡ bad_target words cells n }
{
    if words > MOST_WORDS {
        return true;
    }
    if n > MOST_ROWS {
        return true;
    }
    cells != n * n
}

// Reasons 9 and 10: the map's words, and where they put the frames that exist.
pub fn map_refusal(map: &[u32], count: usize, width: usize, n: usize) -> Result<(), Refusal>
    ensures { number result ≡ map_refusal map.now count width n }
{
    if bad_words(map) {
        return Err(Refusal::BadWord);
    }
    if some_exceeds(map, count, width, n) {
        return Err(Refusal::OutOfHessian);
    }
    Ok(())
}

// The word that a word of an index list becomes.
fn word_at(map: &[u32], w: u32) -> u32
    ensures { result ≡ word_at map.now (place_of w) }
{
    match place_of(w) {
        Some(k) => { if k < map.len() { map[k] } else { UNMAPPED } }
        None => UNMAPPED,
    }
}

fn write_remapped(map: &[u32], list: &[u32], out: &mut [u32])
    requires { length out.old ≡ length list.now }
    ensures { out.new ≡ remapped map.now list.now }
{
    for k in 0..list.len() {
        out[k] = word_at(map, list[k]);
    }
}

// The map that an index list makes of a map.
pub fn remap(map: &[u32], list: &[u32], out: &mut [u32]) -> Result<(), Refusal>
    ensures { Answered (remap_refusal map.now list.now out.old) (number result) out.old out.new (remapped map.now list.now) }
{
    if map.len() > MOST_WORDS {
        return Err(Refusal::WrongLength);
    }
    if list.len() > MOST_WORDS {
        return Err(Refusal::WrongLength);
    }
    if out.len() != list.len() {
        return Err(Refusal::WrongLength);
    }
    if bad_words(map) {
        return Err(Refusal::BadWord);
    }
    if bad_words(list) {
        return Err(Refusal::BadWord);
    }
    write_remapped(map, list, out);
    Ok(())
}
