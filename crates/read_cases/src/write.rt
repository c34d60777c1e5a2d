// The cases of the writer: lines by a schema, written into buffers of full stops.
use std::io;
use std::io::Write;
use text_writer::write_lines;

fn write_case(out: &mut impl Write, buffer: &mut [u8]) -> io::Result<()> {
    let values = [7i64, 14, -3];
    match write_lines(buffer, 0, b"month=hour=tie=", &values) {
        Some(next) => writeln!(out, "written={next}")?,
        None => writeln!(out, "refused=14 line=0")?,
    }
    out.write_all(buffer)?;
    writeln!(out)
}

// A buffer of at most 26 bytes.
pub(crate) fn write_into(out: &mut impl Write, length: usize) -> io::Result<()> {
    let mut buffer = [b'.'; 26];
    if length <= 26 {
        write_case(out, &mut buffer[..length])?;
    }
    Ok(())
}
