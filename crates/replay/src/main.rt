// Makes the calls of a stored sample and writes how many agree with what the original Rust answered to them. The sample was made by
// `original sample` in oracle/original, which compiles the original's own text; the command scripts/sample makes it again.
#![tactic(auto)]

mod call;
mod case;
mod sample;

use call::Call;
use case::{Case, Head};
use sample::Sample;
use std::fs::File;
use std::io;
use std::io::Read;

// Whether the words that a call does not write are left as they were: its first where that is the freedom, and the second list.
fn kept_words(call: Call, c: Case) -> bool {
    (!call.has_freedom() || c.left_word(0, c.word(0)))
        && (call.writes_second() || c.left_words(1, c.words))
}

// Whether the call of a case answers and leaves what it should. Each list is read into an array on the stack, which no call can fail to get.
fn agrees(head: Head) -> bool {
    let mut laid = [0.0; 65536];
    case::lay(head, &mut laid);
    let mut patterns = [0; 64];
    let mut words = [0; 1100];
    let c = Case {
        head,
        laid: &laid,
        patterns: head.sample.patterns(head.patterns(), &mut patterns),
        words: head.sample.words(head.words(1), &mut words),
    };
    match Call::try_from(head.call()) {
        Ok(call) => call.agrees(c) && kept_words(call, c),
        Err(_) => false,
    }
}

// How many of the cases agree.
fn agreeing(sample: Sample, cases: u32) -> u32 {
    let mut agree = 0;
    let mut head = Head { sample, at: 1 };
    for _ in 0..cases {
        agree += u32::from(agrees(head));
        head = head.next();
    }
    agree
}

// Writes how many of the sample's calls agree.
fn report(rt: &impl Print, sample: Sample) -> io::Result<()> {
    let cases = sample.unit(0);
    let agree = agreeing(sample, cases);
    println!(rt; "{agree} of {cases} calls agree")
}

// Fills the sample from a file, as far as that goes. Its room is fixed: a longer file is cut off, and no call can fail to get memory.
fn fill(file: &mut File, sample: &mut [u8; 700000]) -> io::Result<()> {
    let mut filled = 0;
    for _ in 0..700000 {
        let n = file.read(&mut sample[filled..])?;
        if n == 0 {
            break;
        }
        filled += n;
    }
    Ok(())
}

fn main(rt: HostRuntime) -> io::Result<()> {
    let mut file = File::open(&rt, "sample")?;
    let mut bytes = [0; 700000];
    fill(&mut file, &mut bytes)?;
    report(&rt, Sample { bytes: &bytes })
}
