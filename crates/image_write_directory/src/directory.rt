// The header and the directory of an image.
ghost use Rattle.std.specs.Prelude.{◌+◌, ◌*◌, ◌≤◌, ◌<◌, ◌^◌, length};
ghost use Rattle.image_spec.specs.Parse.{each};
ghost use Rattle.image_spec.specs.Image.{header_bytes, entry_bytes};
ghost use Rattle.image_write_parts.specs.Written.{Wrote};
ghost use Rattle.image_write_directory.specs.Emitting.{entries_from, total};

use image_spec::Layout;
use image_write_parts::writer::Writer;

// Layout number, definitions, max_id and records.
pub fn put_header(
    writer: &mut Writer<'_>,
    layout: Layout,
    definitions: u32,
    max_id: u32,
    records: u32,
)
    requires { (layout.id ≤ 8) × ((layout.place ≤ 8) × (writer.old.at + 20 < 2 ^ 64)) }
    ensures { Wrote writer.old writer.new (header_bytes layout (layout.number, (definitions, (max_id, records)))) }
{
    writer.number(2, layout.number);
    writer.number(2, definitions);
    writer.number(layout.id, max_id);
    writer.number(layout.place, records);
}

// Offset and length of each record, `width` bytes each; the first begins at `start`. (`place` goes on: each begins where the one before ends.)
pub fn put_directory(writer: &mut Writer<'_>, lengths: &[usize], width: usize, start: usize)
    requires { (width ≤ 8) × ((writer.old.at + 16 * length lengths.now < 2 ^ 64) × (start + total lengths.now < 2 ^ 32)) }
    ensures { Wrote writer.old writer.new (each (entry_bytes width) (entries_from start lengths.now)) }
{
    let mut place = start;
    for &size in lengths {
        writer.number(width, place as u32);
        writer.number(width, size as u32);
        place += size;
    }
}
