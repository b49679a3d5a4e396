// Compares `floats` and `logistic` with the right answers of the files in data/, every bit.
// It writes a line for each file: how many were compared, how many differ, and the first that does.
#![tactic(auto)]

use std::io::Read;
use std::rt::Files;
use std::{fs, io};

// A case whose answer is not the right one.
#[derive(Clone, Copy)]
struct Difference {
    input: u64,
    answer: u64,
    right: u64,
}

// How many cases were compared, how many differ, and the first that does.
#[derive(Clone, Copy, Default)]
struct Tally {
    compared: u64,
    differ: u64,
    first: Option<Difference>,
}

// ---- what is compared, from bits to bits

// The low word. `forging` has these two as well: one line each, which no crate of the library would call.
fn short(x: u64) -> u32 {
    (x % 4294967296) as u32
}

fn float(x: u64) -> f32 {
    floats::from_bits(short(x))
}

fn wide(x: u64) -> f64 {
    floats::from_bits(x)
}

fn pattern(x: f32) -> u64 {
    u64::from(floats::to_bits(x))
}

// The logistic's answer: the score's bits, or 2^32 times the reply number, and the place.
fn scored(z: f32) -> u64 {
    logistic::score(z).map_or(0x6_0000_0000, pattern)
}

// The presence score of a motion, in the low word, and a threshold, in the high word.
fn present(both: u64) -> u64 {
    pattern(logistic::presence_score(float(both), float(both >> 32)))
}

// ---- comparing

impl Tally {
    fn count(&mut self, case: Difference) {
        self.compared = self.compared.wrapping_add(1);
        if case.answer != case.right {
            self.differ = self.differ.wrapping_add(1);
            self.first = self.first.or(Some(case));
        }
    }

    // The cases of a part of a file, 16 bytes each: the input, and the right answer.
    fn compare<F: Fn(u64) -> u64>(&mut self, helper: &F, bytes: &[u8])
        requires { F.IsAlwaysCallable helper.now }
    {
        let (words, _) = bytes.as_chunks::<8>();
        let (cases, _) = words.as_chunks::<2>();
        for [input, right] in cases {
            let input = u64::from_le_bytes(*input);
            let right = u64::from_le_bytes(*right);
            let answer = helper(input);
            self.count(Difference {
                input,
                answer,
                right,
            });
        }
    }
}

// The cases of a whole file. The turns are bounded by a number that no file uses up.
// The buffer is lent, so that it stands on the stack once.
fn compare_file<F: Fn(u64) -> u64, R: Read>(
    helper: &F,
    file: &mut R,
    buffer: &mut [u8; 65536],
) -> io::Result<Tally>
    requires { F.IsAlwaysCallable helper.now }
{
    let mut tally = Tally::default();
    for _ in 0..u64::MAX {
        let n = reading::read_full(file, buffer)?;
        if n == 0 {
            break;
        }
        tally.compare(helper, &buffer[..n]);
    }
    Ok(tally)
}

fn report(rt: &impl Print, name: &str, tally: Tally) -> io::Result<()> {
    println!(rt;
        "{name}: {} compared, {} differ",
        tally.compared, tally.differ
    )?;
    if let Some(case) = tally.first {
        println!(rt;
            "  first: input {:016x}, answer {:016x}, right {:016x}",
            case.input, case.answer, case.right
        )?;
    }
    Ok(())
}

// A file that cannot be opened is named on standard error.
fn run<F: Fn(u64) -> u64 + Drop>(
    rt: &(impl Files + Print + Eprint),
    buffer: &mut [u8; 65536],
    name: &str,
    helper: F,
) -> io::Result<()>
    requires { F.IsAlwaysCallable helper }
{
    match fs::open(rt, name) {
        Ok(mut file) => {
            let tally = compare_file(&helper, &mut file, buffer)?;
            report(rt, name, tally)
        }
        Err(e) => eprintln!(rt; "{name}: {e}"),
    }
}

fn main(rt: HostRuntime) -> io::Result<()> {
    let mut buffer = [0u8; 65536];
    run(
        &rt,
        &mut buffer,
        "roots",
        |x| floats::to_bits(floats::root(wide(x))),
    )?;
    run(
        &rt,
        &mut buffer,
        "narrowings",
        |x| pattern(floats::narrow(wide(x))),
    )?;
    run(
        &rt,
        &mut buffer,
        "widenings",
        |x| floats::to_bits(floats::widen(float(x))),
    )?;
    run(
        &rt,
        &mut buffer,
        "clamps",
        |x| pattern(floats::clamp01(float(x))),
    )?;
    run(
        &rt,
        &mut buffer,
        "finite",
        |x| u64::from(floats::is_finite(float(x))),
    )?;
    run(
        &rt,
        &mut buffer,
        "finite_wide",
        |x| u64::from(floats::is_finite(wide(x))),
    )?;
    run(&rt, &mut buffer, "patterns", |x| pattern(float(x)))?;
    run(
        &rt,
        &mut buffer,
        "finite_patterns",
        |x| u64::from(floats::bits_finite(short(x))),
    )?;
    for name in [
        "logistic_table",
        "logistic_multiples",
        "logistic_edges",
        "logistic_spread",
    ] {
        run(&rt, &mut buffer, name, |x| scored(float(x)))?;
    }
    run(&rt, &mut buffer, "logistic_presence", present)
}
