// Reads a STAR File from standard input and prints its block codes and the number of rows of each table, or its refusal.
#![tactic(auto)]

mod listing;

ghost use Rattle.std.specs.Prelude.{IfSome, OnOk};
ghost use Rattle.std.specs.Io.KnownBytes.{Appends};
ghost use Rattle.star_list.specs.Listing.{listing_of};

use crate::listing::listing;
use std::io::{self, Read, Write};

// Writes what the program prints for an input, by one call; no text is longer than the room.
fn write_listing<W: Write>(output: &mut W, input: &[u8]) -> io::Result<()>
    ensures { OnOk result (Appends (W.contents output.old) (W.contents output.new) (listing_of input.now)) }
{
    let mut out: [u8; 8217] = [0; 8217];
    let size = listing(input, &mut out);
    output.write_all(&out[..size])
}

// Reads an input, as much of it as tells what is printed, and writes that.
fn run<R: Read, W: Write>(input: &mut R, output: &mut W) -> io::Result<()>
    ensures { OnOk result (IfSome (R.remaining input.old)
        (λ bytes. Appends (W.contents output.old) (W.contents output.new) (listing_of bytes))) }
{
    let mut file = [0; 8193];
    let count = star_input::read_full(input, &mut file)?;
    write_listing(output, &file[..count])
}

fn main(rt: HostRuntime) -> io::Result<()> {
    run(&mut rt.stdin(), &mut io::writer(&rt))
}
