// Questions 3, 4 and 6: the first record that is the no by itself.
use crate::place::Place;
use try_building::build::LARGEST;
use try_building::image::{HEADER, Image, PAIR, Pair, body, header};
use try_building::record::Record;
use try_building::refusal::Refusal;

// Question 3: the first record whose pair is cut off, or does not begin where the one before it ends; the last one where it ends elsewhere
// than the image. (A `for` that returns: `due` goes on.)
pub fn astray(image: Image<'_>) -> Option<Place> {
    let records = image.records();
    let mut due = body(records);
    for k in 0..records {
        match image.pair(k) {
            Some(pair) if usize::from(pair.offset) == due => due = pair.end(),
            Some(_) | None => return Some(Place::from(usize::from(k))),
        }
    }
    if due == image.bytes.len() {
        return None;
    }
    records.checked_sub(1).map(|k| Place::from(usize::from(k)))
}

// Where the record of an image of one begins.
const FIRST: usize = HEADER + PAIR;

// An image of this record alone, at the start of this buffer, which has room for any image.
fn alone<'a>(record: &[u8], buffer: &'a mut [u8]) -> Option<&'a [u8]> {
    let pair = Pair {
        offset: FIRST as u16,
        length: u16::try_from(record.len()).ok()?,
    };
    let (front, rest) = buffer.split_at_mut_checked(FIRST)?;
    let (head, tail) = front.split_at_mut_checked(HEADER)?;
    let (body, _) = rest.split_at_mut_checked(record.len())?;
    head.copy_from_slice(&header(1, 0, 1));
    tail.copy_from_slice(&pair.bytes());
    body.copy_from_slice(record);
    buffer.get(..FIRST + record.len())
}

fn is_malformed(record: &[u8], buffer: &mut [u8]) -> bool {
    let mut length = 0;
    let mut max_id = 0;
    alone(record, buffer).is_some_and(|image| {
        let number = axcut::axcut_read(image, &mut length, &mut max_id);
        Refusal::check(number) == Err(Refusal::RecordForm)
    })
}

// Question 4: the first record that is refused with 4 alone in an image. (A `for` that returns: each turn writes to the buffer.)
pub fn malformed(image: Image<'_>) -> Option<Place> {
    let mut buffer = [0u8; LARGEST];
    for k in 0..image.records() {
        if let Some(record) = image.record_bytes(k) {
            if is_malformed(record, &mut buffer) {
                return Some(Place::from(usize::from(k)));
            }
        }
    }
    None
}

fn is_linearized(record: Record<'_>) -> bool {
    matches!(
        record,
        Record::Substitute { .. }
            | Record::Create {
                environment: Some(_),
                ..
            }
    )
}

// Question 6: the first Substitute, or Create with an environment.
pub fn linearized(image: Image<'_>) -> Option<Place> {
    (0..image.records())
        .find(|k| image.record(*k).is_some_and(is_linearized))
        .map(|k| Place::from(usize::from(k)))
}
