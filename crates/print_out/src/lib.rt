// Reading what "ways" is given, and writing out what it prints.
#![tactic(auto)]

ghost use Rattle.std.specs.Prelude.{◌<◌, length, take, IfOk, OnOk};
ghost use Rattle.std.specs.Io.{ReadsAtMost};
ghost use Rattle.std.specs.Io.KnownBytes.{Consumes, IsAtEnd};
ghost use Rattle.print_out.specs.inner.Printed.{LinesWritten, Ran};

use std::io;
use std::io::{Read, Write};

// Reads until the buffer is full or the input ends: how many bytes it put at the buffer's start.
pub fn read_full<R: Read>(reader: &mut R, buffer: &mut [u8]) -> io::Result<usize>
    ensures at_most { ReadsAtMost result buffer.new }
    ensures bytes { IfOk result (λ n. Consumes (R.remaining reader.old) (R.remaining reader.new) (take n buffer.new)) }
    ensures end { IfOk result (λ n. n < length buffer.new → IsAtEnd (R.remaining reader.new)) }
{
    let mut done = 0;
    // No `for`: a read puts as many bytes as it has.
    while done < buffer.len() {
        let count = reader.read(&mut buffer[done..])?;
        if count == 0 {
            return Ok(done);
        }
        done += count;
    }
    Ok(done)
}

// Writes the lines for the input, a buffer at a time.
pub fn print_all<W: Write>(writer: &mut W, input: &[u8], out: &mut [u8]) -> io::Result<()>
    ensures { OnOk result (LinesWritten input.now (length out.old) (W.contents writer.old) (W.contents writer.new)) }
{
    let mut from = 0;
    loop {
        let printed = print_plan::print_lines(input, from, out);
        writer.write_all(&out[..printed.length])?;
        if printed.left == 0 || printed.lines == 0 {
            return Ok(());
        }
        from += printed.lines;
    }
}

// Reads a plan, and writes its lines. One byte more than 4,096 at the most is ever needed.
pub fn run<R: Read, W: Write>(reader: &mut R, writer: &mut W) -> io::Result<()>
    ensures { OnOk result (Ran 4097 262144 (R.remaining reader.old) (R.remaining reader.new)
        (W.contents writer.old) (W.contents writer.new)) }
{
    let mut input = [0; 4097];
    let length = read_full(reader, &mut input)?;
    let mut out = [0; 262144];
    print_all(writer, &input[..length], &mut out)
}
