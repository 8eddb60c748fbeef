#![tactic(auto)]

// Prints the degrees in the key of Horner and BRW of 3, 4, 7, 31 and 255 blocks.
use polynomials::degrees::{Degrees, degrees_of};
use std::io;

fn main(rt: HostRuntime) -> io::Result<()> {
    println!(rt; "blocks horner brw")?;
    for blocks in [3usize, 4, 7, 31, 255] {
        let Degrees { horner, brw } = degrees_of(blocks);
        println!(rt; "{blocks} {horner} {brw}")?;
    }
    Ok(())
}
