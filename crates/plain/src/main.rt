#![tactic(auto)]

mod calls;
mod unserved;

use calls::serve;
use std::io;
use unserved::Unserved;

// Prints the numbers of an accepted call.
fn print_numbers(rt: &HostRuntime, out: &[u16; 256]) -> io::Result<()> {
    print!(rt; "ok")?;
    for number in out {
        print!(rt; " {number}")?;
    }
    println!(rt; "")
}

fn run(rt: &HostRuntime) -> anyhow::Result<()> {
    let text = io::read_to_string(rt.alloc(), rt.stdin())?;
    let mut out = [0u16; 256];
    for line in text.as_str().lines() {
        match serve(rt.alloc(), line, &mut out) {
            Ok(()) => print_numbers(rt, &out)?,
            Err(Unserved::OutOfMemory(e)) => return Err(e.into()),
            Err(unserved) => println!(rt; "{unserved}")?,
        }
    }
    Ok(())
}

fn main(rt: HostRuntime) -> anyhow::Result<()> {
    run(&rt)
}
