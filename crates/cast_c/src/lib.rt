// The exported functions, as C calls them: those of the library cast, under their own names. include/cast.h declares them.
#![tactic(auto)]

ghost use Rattle.std.specs.Prelude.{◌≡◌, ◌≤◌, length};
ghost use Rattle.cast.specs.Cast.{answer_of, found_of, written_as};
ghost use Rattle.lookup.specs.Lookup.{lookup_of};
ghost use Rattle.reader.specs.Reading.{reading_of, table_after};
ghost use Rattle.removal.specs.Trimmer.{trimmed_of, trimmed_output, trimmed_table};
ghost use Rattle.writer.specs.Writer.{written_of, output_after};

use cast::{CastFound, CastReading, CastWritten};

// Reads a file, and puts its rows into the table.
#[unsafe(no_mangle)]
pub extern "C" fn cast_read(file: &[u8], table: &mut [u32]) -> CastReading
    ensures result { result ≡ answer_of (reading_of file.now table.old) }
    ensures table { table.new ≡ table_after file.now table.old }
{
    cast::cast_read(file, table)
}

// Finds a property of a row by its name: its data is bytes[start..end].
#[unsafe(no_mangle)]
pub extern "C" fn cast_lookup(bytes: &[u8], table: &[u32], row: usize, name: &[u8]) -> CastFound
    ensures result { result ≡ found_of (lookup_of bytes.now table.now row name.now) }
    ensures order { result.start ≤ result.end }
    ensures within { result.end ≤ length bytes.now }
{
    cast::cast_lookup(bytes, table, row, name)
}

// Writes a plan's rows, with their bodies out of the source, as a file.
#[unsafe(no_mangle)]
pub extern "C" fn cast_write(plan: &[u32], source: &[u8], flags: u32, out: &mut [u8]) -> CastWritten
    ensures result { result ≡ written_as (written_of plan.now source.now flags (length out.old)) }
    ensures output { out.new ≡ output_after plan.now source.now flags out.old }
{
    cast::cast_write(plan, source, flags, out)
}

// Writes a file without the node of a row, whose kind must be unknown, and puts the new file's rows into the table.
#[unsafe(no_mangle)]
pub extern "C" fn cast_trim(
    file: &[u8],
    row: usize,
    table: &mut [u32],
    out: &mut [u8],
) -> CastWritten
    ensures result { result ≡ written_as (trimmed_of file.now row table.old (length out.old)) }
    ensures output { out.new ≡ trimmed_output file.now row table.old out.old }
    ensures table { table.new ≡ trimmed_table file.now row table.old (length out.old) }
{
    cast::cast_trim(file, row, table, out)
}
