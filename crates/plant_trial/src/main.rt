// How long tables of growing size take to read, with the argument `read`; nothing without. Relies on table.
#![tactic(auto)]

use plant::Plant;
use std::alloc::{AllocError, Global};
use std::time::Instant;
use std::{env, io};
use table::table::TablePlant;

const ARCS: u32 = 16;

// A table of states with sixteen arcs each, which differ in their events.
fn words(heap: Global, states: u32) -> Result<Vec<u32>, AllocError> {
    let arcs = states.wrapping_mul(ARCS);
    let head = [states, ARCS, 1, arcs, 0];
    let facts = (0..states).map(|_| 5);
    let counts = (0..states).map(|_| ARCS);
    let events = (0..arcs).map(|k| k % ARCS);
    let targets = (0..arcs).map(|k| k.wrapping_mul(2654435761) % states.max(1));
    head.into_iter()
        .chain(facts)
        .chain(counts)
        .chain(events)
        .chain(targets)
        .collect(heap)
}

fn timed_reading(rt: &HostRuntime, states: u32) -> io::Result<()> {
    let words = words(rt.alloc(), states)?;
    let start = Instant::now(rt)?;
    let made = TablePlant::from_words(rt.alloc(), words.as_slice());
    let took = start.elapsed(rt)?.as_micros();
    let count = words.len();
    match made {
        Ok(plant) => {
            let extent = plant.extent();
            println!(rt; "words {count} states {extent} micros {took}")
        }
        Err(_) => println!(rt; "words {count} refused"),
    }
}

// Beside trial's: what is timed differs, and what is the same is an argument read.
fn main(rt: HostRuntime) -> io::Result<()> {
    let mut args = env::args(&rt)?;
    let _ = args.next();
    match args.next() {
        Some(arg) if arg.as_str() == "read" => {
            for states in [64, 256, 1024, 4096] {
                timed_reading(&rt, states)?;
            }
            Ok(())
        }
        _ => Ok(()),
    }
}
