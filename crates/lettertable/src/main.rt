// Holds what is read of each letter of a table to what the table expects.
#![tactic(auto)]

mod answers;
mod lines;

use crate::lines::Line;
use anyhow::anyhow;
use std::fs;
use std::rt::Files;

// How many letters there were, and how many were answered otherwise than expected.
#[derive(Clone, Copy)]
struct Tally {
    letters: u32,
    others: u32,
}

fn judge(rt: &impl Print, number: usize, line: &Line) -> anyhow::Result<bool> {
    let expected = line.expected;
    let answer = line.answer();
    if answer == expected {
        println!(rt; "line {number}: {answer}, as expected")?;
        return Ok(true);
    }
    println!(rt; "line {number}: {answer}, but {expected} was expected")?;
    Ok(false)
}

fn judge_all(rt: &(impl Print + AllocGlobal), text: &str) -> anyhow::Result<Tally> {
    let mut tally = Tally {
        letters: 0,
        others: 0,
    };
    for (i, line) in text.lines().enumerate() {
        if line.starts_with('#') {
            continue;
        }
        let line = Line::parse(rt.alloc(), line)?;
        tally.letters = tally.letters.saturating_add(1);
        if !judge(rt, i.saturating_add(1), &line)? {
            tally.others = tally.others.saturating_add(1);
        }
    }
    Ok(tally)
}

fn run(rt: &(impl Files + Print + AllocGlobal)) -> anyhow::Result<()> {
    let text = fs::read_to_string(rt, "letters.txt")?;
    let tally = judge_all(rt, text.as_str())?;
    let letters = tally.letters;
    let others = tally.others;
    println!(rt; "{letters} letters, {others} of them answered otherwise than expected")?;
    if others > 0 {
        return Err(anyhow!("the table and the reading do not agree"));
    }
    Ok(())
}

fn main(rt: HostRuntime) -> anyhow::Result<()> {
    run(&rt)
}
