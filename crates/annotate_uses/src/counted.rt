// An image whose counts have passed question 7.
ghost use Rattle.annotate_uses.specs.Sources.{Source};

use image_directory::image::Image;

#[derive(Clone, Copy)]
pub struct Counted<'a> {
    pub image: Image<'a>,
    pub ghost small: { Source image.frame image.bytes.now },
}
