// The whole listing, with the annotations that the library gives.
use crate::program::Program;
use std::io::{Result, Write};
use tool_listing::annotation::is_annotated;
use tool_listing::line::View;
use tool_listing::page::Page;
use tool_listing::walk::Walk;
use try_building::image::Image;
use try_building::record::Record;

// `program` and `view`: what is listed, and which columns were asked for; `Walk` takes a view without a program.
// The remark behind a line, where an annotation is there: its free variables, behind the index where that is there.
fn annotation(
    page: &mut Page<'_>,
    program: &Program<'_>,
    view: View,
    k: u16,
    record: Record<'_>,
) -> Result<()> {
    if !view.annotations || !is_annotated(record) {
        return Ok(());
    }
    page.say(if view.records { ": " } else { "  // " })?;
    match program.annotate(usize::from(k), &mut io::large_buffer()) {
        Ok(found) => page.annotation(record, found),
        Err(_) => Ok(()),
    }
}

// Writes the listing of an image with this max_id.
pub fn listing(page: &mut Page<'_>, program: &Program<'_>, view: View, max_id: u32) -> Result<()> {
    writeln!(page, "max_id {max_id}")?;
    let image = Image::new(program.bytes());
    let mut walk = Walk::new();
    for k in 0..image.records() {
        if let Some(record) = image.record(k) {
            walk.begin_line(page, view, k, record)?;
            annotation(page, program, view, k, record)?;
            walk.end_line(page, record)?;
        }
    }
    page.flush()
}
