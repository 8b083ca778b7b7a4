// Runs both hashes over the published vectors, and names each one on which they differ.
#![tactic(auto)]

use letters::digests::digest_of;
use schemes::sip::sip_hash;
use std::{array, fs, io};

// The key 00 01 .. 0f, as its two words.
const KEY: (u64, u64) = (0x0706050403020100, 0x0f0e0d0c0b0a0908);

// The message 00 01 .. 3f, of which each vector has the first so many bytes.
fn message() -> [u8; 64] {
    array::from_fn(|i| i as u8)
}

// The input is the length of a message; the bytes of its hash come lowest first.
fn sip(input: &str) -> Option<u64> {
    let length = input.parse::<usize>().ok()?;
    let message = message();
    let bytes = message.get(..length)?;
    Some(sip_hash(KEY.0, KEY.1, bytes).swap_bytes())
}

// The input is a text, and `-` the empty one.
fn fnv(input: &str) -> Option<u64> {
    let text = if input == "-" { "" } else { input };
    Some(digest_of(text.as_bytes()).0)
}

// Our hash and the published one, if the line is a vector.
fn hashes<F: Fn(&str) -> Option<u64>>(hash: &F, line: &str) -> Option<(u64, u64)>
    requires { F.IsAlwaysCallable hash.now }
{
    let (input, published) = line.split_once(' ')?;
    let ours = hash(input)?;
    let published = u64::from_str_radix(published, 16).ok()?;
    Some((ours, published))
}

// A line that starts with # only tells of the others.
fn run<F: Fn(&str) -> Option<u64>>(
    rt: &HostRuntime,
    name: &str,
    file: &str,
    hash: F,
) -> io::Result<()>
    requires { F.IsAlwaysCallable hash }
{
    let vectors = fs::read_to_string(rt, file)?;
    let mut agree: u64 = 0;
    let mut differ: u64 = 0;
    for line in vectors.as_str().lines() {
        if line.starts_with('#') {
            continue;
        }
        match hashes(&hash, line) {
            Some((ours, published)) if ours == published => agree = agree.saturating_add(1),
            Some((ours, published)) => {
                differ = differ.saturating_add(1);
                println!(rt; "{name}: ours {ours:016x}, published {published:016x}")?;
            }
            None => {
                differ = differ.saturating_add(1);
                println!(rt; "{name}: a line that is no vector")?;
            }
        }
    }
    println!(rt; "{name}: {agree} agree, {differ} differ")
}

fn main(rt: HostRuntime) -> io::Result<()> {
    run(&rt, "SipHash-2-4", "siphash.txt", sip)?;
    run(&rt, "FNV-1a", "fnv.txt", fnv)
}
