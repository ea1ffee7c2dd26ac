// The exported functions, which the static library of cast_c exports to C. include/cast.h declares them.
#![tactic(auto)]

ghost use Rattle.std.specs.Prelude.{◌≡◌, ◌≤◌, ◌<◌, ◌^◌, length};
ghost use Rattle.cast.specs.Cast.{answer_of, found_of, written_as};
ghost use Rattle.base.specs.Refusals.{refusal_in};
ghost use Rattle.emit.specs.Emission.{written_told};
ghost use Rattle.lookup.specs.Lookup.{lookup_of};
ghost use Rattle.reader.specs.Reading.{reading_of, table_after};
ghost use Rattle.removal.specs.Trimmer.{trimmed_of, trimmed_output, trimmed_table};
ghost use Rattle.writer.specs.Writer.{written_of, output_after};

use base::Refusal;

// The answers as C has them: number 0 and values, or a refusal's number and place.
#[repr(C)]
#[derive(Clone, Copy)]
pub struct CastReading {
    pub number: u32,
    pub place: u32,
    pub nodes: u32,
    pub flags: u32,
    pub own_known: u32,
    pub own_unknown: u32,
    pub faces: u32,
    pub degenerate: u32,
    pub links: u32,
}

// Reads a file, and puts its rows into the table.
pub fn cast_read(file: &[u8], table: &mut [u32]) -> CastReading
    ensures result { result ≡ answer_of (reading_of file.now table.old) }
    ensures table { table.new ≡ table_after file.now table.old }
{
    match reader::read(file, table) {
        Ok(a) => {
            let own_known = a.known.0 as u32;
            let own_unknown = a.unknown.0 as u32;
            let faces = a.faces.0 as u32;
            let degenerate = a.degenerate as u32;
            CastReading {
                number: 0,
                place: 0,
                nodes: a.nodes,
                flags: a.flags,
                own_known,
                own_unknown,
                faces,
                degenerate,
                links: a.links,
            }
        }
        Err(refusal) => CastReading {
            number: refusal.reason.number(),
            place: refusal.place as u32,
            nodes: 0,
            flags: 0,
            own_known: 0,
            own_unknown: 0,
            faces: 0,
            degenerate: 0,
            links: 0,
        },
    }
}

#[repr(C)]
#[derive(Clone, Copy)]
pub struct CastFound {
    pub number: u32,
    pub place: u32,
    pub start: usize,
    pub end: usize,
}

// Finds a property of a row by its name: its data is bytes[start..end].
pub fn cast_lookup(bytes: &[u8], table: &[u32], row: usize, name: &[u8]) -> CastFound
    ensures result { result ≡ found_of (lookup_of bytes.now table.now row name.now) }
    ensures order { result.start ≤ result.end }
    ensures within { result.end ≤ length bytes.now }
{
    match lookup::find(bytes, table, row, name) {
        Ok(found) => CastFound {
            number: 0,
            place: 0,
            start: found.start,
            end: found.end,
        },
        Err(why) => CastFound {
            number: why.number(),
            place: 0,
            start: 0,
            end: 0,
        },
    }
}

#[repr(C)]
#[derive(Clone, Copy)]
pub struct CastWritten {
    pub number: u32,
    pub place: u32,
    pub length: u32,
}

fn numbers_of(written: Result<u32, Refusal>) -> CastWritten
    requires { (refusal_in written).place < 2 ^ 32 }
    ensures { result ≡ written_as (written_told written) }
{
    let (number, place, length) = match written {
        Ok(length) => (0, 0, length),
        Err(refusal) => (refusal.reason.number(), refusal.place as u32, 0),
    };
    CastWritten {
        number,
        place,
        length,
    }
}

// Writes a plan's rows, with their bodies out of the source, as a file.
pub fn cast_write(plan: &[u32], source: &[u8], flags: u32, out: &mut [u8]) -> CastWritten
    ensures result { result ≡ written_as (written_of plan.now source.now flags (length out.old)) }
    ensures output { out.new ≡ output_after plan.now source.now flags out.old }
{
    numbers_of(writer::write(plan, source, flags, out))
}

// Writes a file without the node of a row, whose kind must be unknown, and puts the new file's rows into the table.
pub fn cast_trim(file: &[u8], row: usize, table: &mut [u32], out: &mut [u8]) -> CastWritten
    ensures result { result ≡ written_as (trimmed_of file.now row table.old (length out.old)) }
    ensures output { out.new ≡ trimmed_output file.now row table.old out.old }
    ensures table { table.new ≡ trimmed_table file.now row table.old (length out.old) }
{
    numbers_of(trimmer::trim(file, row, table, out))
}
