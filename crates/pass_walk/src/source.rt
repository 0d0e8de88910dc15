// A source: its image, and a row for each of its records.
// (That its records have passed questions 6 and 7 is asked with what is ahead, of which each function asks anyway.)
use image_directory::image::Image;
use scope_spec::FreeVars;

#[derive(Clone, Copy)]
pub struct Source<'a> {
    pub image: Image<'a>,
    pub rows: &'a [FreeVars],
}
