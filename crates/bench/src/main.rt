//! Measures the documented speed of maps and tables.
//!
//! `bench maps ENTRIES` compares maps and tables with the standard map, in the same run. It prints the time of an
//! insert into it, of a write of a key that is there and of a look-up, of about a million calls of each. `bench check`
//! does each of them once, small, and prints no time.

#![tactic(auto)]

mod maps;

use anyhow::{Context, Result, bail};
use std::env;
use std::rt::Clock;

fn main(rt: HostRuntime) -> Result<()> {
    let words: Vec<String> = env::args(&rt)?.collect(rt.alloc())?;
    match words.get(1).map(|word| word.as_str()) {
        Some("maps") => tell(&rt, number(&words, 2)?),
        Some("check") => {
            maps::measure(&rt, 100, 1)?;
            println!(rt; "maps: ok")?;
            Ok(())
        }
        _ => bail!("bench maps ENTRIES, or bench check"),
    }
}

fn tell<R: AllocGlobal + Clock + Print>(rt: &R, entries: u32) -> Result<()> {
    let rounds = 1_000_000 / entries.clamp(1, 1_000_000);
    for line in &maps::measure(rt, entries, rounds)? {
        println!(rt; "{line}")?;
    }
    Ok(())
}

fn number(words: &[String], place: usize) -> Result<u32> {
    match words.get(place) {
        Some(word) => word.parse::<u32>().context("a number"),
        None => bail!("a number is missing"),
    }
}
