// Runs the cases of `stdin` through the element layer and the five services, and prints each answer beside its case.
#![tactic(auto)]

mod book;
mod command;
mod dump;
mod element;
mod hex;
mod lent;
mod link;
mod run;
mod show;
mod stop;
mod text;

use input::read_full;
use std::io;

// Runs the cases that standard input holds, in a lent array.
fn all(rt: &HostRuntime, buf: &mut [u8; 524288]) -> io::Result<()> {
    let n = read_full(&mut rt.stdin(), buf)?;
    if n == buf.len() {
        return println!(rt; "THE CASES ARE TOO LONG");
    }
    run::lines(rt, &buf[..n])
}

fn main(rt: HostRuntime) -> io::Result<()> {
    let mut buf = [0u8; 524288];
    all(&rt, &mut buf)
}
