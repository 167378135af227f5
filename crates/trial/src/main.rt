// Tries runs: without arguments the worked examples, and with the argument `time` how long the test takes on long runs.
// Relies on formula, text, meaning and rows.
#![tactic(auto)]

mod plants;

use meaning::{examples_stand, test_decides};
use plants::{Noise, Slide, Still};
use rows::run::Run;
use rows::states::States;
use rows::test::test;
use std::time::Instant;
use std::{env, io};
use text::read::from_text;

// The test of a formula's text on a run; nothing where it is no formula, or where the bytes are too few.
fn tried<S: States>(plant: &S, run: &Run, text: &str, cells: &mut [u8]) -> Option<bool> {
    let formula = from_text(text.as_bytes()).ok()?;
    test(plant, run, &formula, cells)
}

fn word(answer: Option<bool>) -> &'static str {
    match answer {
        Some(true) => "yes",
        Some(false) => "no",
        None => "none",
    }
}

// What each of some formulas is on one run; nothing of arrays that are no run.
fn answers<S: States>(
    rt: &HostRuntime,
    plant: &S,
    run: Option<Run>,
    texts: &[&str],
    cells: &mut [u8],
) -> io::Result<()> {
    let Some(run) = run else {
        return Ok(());
    };
    for text in texts {
        let answer = word(tried(plant, &run, text, cells));
        println!(rt; "{text} {answer}")?;
    }
    Ok(())
}

// The twelve worked examples, four on each of three runs.
fn examples(rt: &HostRuntime) -> io::Result<()> {
    let heap = rt.alloc();
    let mut cells = vec![in heap; 7u8; 64]?;
    let round = ["Fp2", "XGp1", "GF[1]", "!p0"];
    answers(
        rt,
        &Slide,
        Run::new(&[0, 1], &[0, 1], 1),
        &round,
        &mut cells,
    )?;
    let ends = ["GXT", "Fp2", "F!XT", "GFp1"];
    answers(
        rt,
        &Slide,
        Run::new(&[0, 1, 2], &[0, 2, 64], 3),
        &ends,
        &mut cells,
    )?;
    let still = ["!XT", "X!T", "(TUp0)", "GT"];
    answers(rt, &Still, Run::new(&[0], &[64], 1), &still, &mut cells)?;
    let left = cells.iter().copied().max().unwrap_or(0);
    println!(rt; "largest byte left {left}")?;
    // their contracts are the theorems that these answers rest on
    let proved = examples_stand() & test_decides();
    println!(rt; "proved {proved}")
}

// A formula of 48 entries, ten of them elementary.
const LONGEST: &str = "!!!G((p0&(e1&T))>F(([2]|(Xp3&!p5))U((p4&T)&(T>!T))))";

// How long the test of the longest formula takes on a run of `places` places that goes back to its middle.
fn timed(rt: &HostRuntime, places: u32) -> io::Result<()> {
    let heap = rt.alloc();
    let states: Vec<u32> = (0..places)
        .map(|i| i.wrapping_mul(2654435761) >> 7)
        .collect(heap)?;
    let events: Vec<u8> = (0..places).map(|i| 1 + (i % 2) as u8).collect(heap)?;
    let mut cells = vec![in heap; 0u8; 48 * places as usize]?;
    let Some(run) = Run::new(&states, &events, places as usize / 2) else {
        return Ok(());
    };
    let start = Instant::now(rt)?;
    let answer = word(tried(&Noise, &run, LONGEST, &mut cells));
    let took = start.elapsed(rt)?.as_micros();
    println!(rt; "places {places} micros {took} {answer}")
}

// Beside plant_trial's: what is timed differs, and what is the same is an argument read.
fn main(rt: HostRuntime) -> io::Result<()> {
    let mut args = env::args(&rt)?;
    let _ = args.next();
    match args.next() {
        Some(arg) if arg.as_str() == "time" => {
            for places in [1000, 10000, 100000, 1000000] {
                timed(&rt, places)?;
            }
            Ok(())
        }
        _ => examples(&rt),
    }
}
