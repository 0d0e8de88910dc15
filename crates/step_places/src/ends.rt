// The table of ends: at each index the place behind the part that begins there.
// (A table beside the records, and no tree of them: there is no heap below the programs.)
ghost use Rattle.std.specs.Prelude.{◌≤◌, length};
ghost use Rattle.step_places.specs.Ends.{Ends, Hopped};
ghost use Rattle.image_directory.specs.Images.{records_of};

use image_directory::image::Image;
use image_read_nodes::parts_of;

// The place behind the part that begins at i. (An `if`: with `get` and `map_or`, tried, it stood open what stands for a place that is not there.)
pub fn behind(ends: &[u32], i: usize) -> usize
    ensures { Hopped ends.now 1 i result }
{
    if i < ends.len() { ends[i] as usize } else { i }
}

// The place behind n parts, one after the other, the first of which begins at `from`. (A loop: the place would be a
// `fold`'s invariant, as it is the loop's.)
// `from` and `n`, also in `search::find`: an index, and a number of parts from there on: a record's, the stepper's, or a caller's.
pub fn hop(ends: &[u32], from: usize, n: usize) -> usize
    ensures { Hopped ends.now n from result }
{
    let mut here = from;
    for _ in 0..n {
        here = behind(ends, here);
    }
    here
}

// Fills the table, from the last record to the first: what follows a record has its ends already.
// (Indices, and no `iter_mut`: each end is worked out from ends behind it, which an iterator would have lent away.)
pub fn fill_ends(image: &Image<'_>, ends: &mut [u32])
    requires { image.now.frame.count ≤ length ends.old }
    ensures { Ends (records_of image.now) ends.new }
{
    for i in (0..image.frame.count).rev() {
        let follows = parts_of(image, i);
        let bodies = hop(ends, i + 1, follows.clauses);
        let end = hop(ends, bodies, follows.bodies);
        ends[i] = end as u32;
    }
}
