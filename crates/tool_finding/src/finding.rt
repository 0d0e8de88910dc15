// The record and the variable that a refusal is about. The library answers a number alone, so the image is gone over once more.
use crate::place::Place;
use crate::{scan, walk};
use try_building::image::Image;
use try_building::refusal::Refusal;

// The most records of an image, and of a source program. (The library's own limits are below its interface; these are those of docs/SPEC.md, 4.3 and 4.7.)
const RECORDS: u16 = 4000;

const SOURCE_RECORDS: u16 = 2000;

// The place of the no to a question; the record that was asked for, where one was, is that of question 13.
pub fn find(image: &[u8], question: Refusal, asked: Option<usize>) -> Option<Place> {
    let image = Image::new(image);
    match question {
        Refusal::Place => asked.map(Place::from),
        Refusal::Directory if image.records() <= RECORDS => scan::astray(image),
        Refusal::RecordForm => scan::malformed(image),
        Refusal::Linearized => scan::linearized(image),
        Refusal::Limits if SOURCE_RECORDS < image.records() => None,
        Refusal::Shape | Refusal::Limits | Refusal::Binders | Refusal::Scope | Refusal::MaxId => {
            walk::first(image, question)
        }
        Refusal::Size
        | Refusal::LayoutNumber
        | Refusal::Directory
        | Refusal::Draws
        | Refusal::Room
        | Refusal::Start
        | Refusal::StepRoom
        | Refusal::State
        | Refusal::Unknown(_) => None,
    }
}
