// A record of a source: it has passed question 6, and its counts question 7.
ghost use Rattle.pass_step.specs.Sources.{IsSource};

use image_read_parts::record::RecordAt;

#[derive(Clone, Copy)]
pub struct SourceRecord<'a> {
    pub node: RecordAt<'a>,
    pub ghost source: { IsSource node },
}
