// The names of variables. A store has IDs alone; the name of an ID is that of the innermost binder around the statement that has it. For each
// entry the records before its statement are gone over, so a record is looked at by its kind, and not read whole.
use try_building::codes::Kind;
use try_building::image::Image;
use try_building::lists::Identifier;
use try_building::reader::Reader;

fn kind(record: &[u8]) -> Option<Kind> {
    Kind::try_from(*record.first()?).ok()
}

// The clauses of a Switch or a Create: its last byte.
fn clauses(record: &[u8]) -> usize {
    record.last().map_or(0, |count| usize::from(*count))
}

// How many records come right behind a record as its parts: clauses and bodies.
fn parts(image: Image<'_>, k: u16) -> usize {
    let Some(record) = image.record_bytes(k) else {
        return 0;
    };
    match kind(record) {
        None | Some(Kind::Call | Kind::Invoke | Kind::Exit) => 0,
        Some(Kind::Switch) => clauses(record),
        Some(Kind::Create) => clauses(record).saturating_add(1),
        Some(Kind::IfC) => 2,
        // The others have a body.
        Some(_) => 1,
    }
}

// Does record k stand around a later one? Its parts come right behind it, and theirs behind them.
fn is_around(image: Image<'_>, k: u16, later: u16) -> bool {
    (k.saturating_add(1)..later)
        .try_fold(
            parts(image, k),
            |open, j| Some(open.checked_sub(1)?.saturating_add(parts(image, j))),
        )
        .is_some_and(|open| 0 < open)
}

// The first variable with an ID of those that parts of this size begin with.
fn among(parts: &[u8], size: usize, id: u16) -> Option<Identifier> {
    if size == 0 {
        return None;
    }
    parts.chunks_exact(size).find_map(|part| Identifier::read(&mut Reader::new(part)).filter(
        |it| it.id == id,
    ))
}

// The binder of a record that has an ID. A Substitute binds the targets of its pairs. (Places and sizes are those of docs/FORMAT.md: this and
// `parts` say again what `Record` says, since reading each record whole was measured, and takes two to three times as long.)
fn binder(record: &[u8], id: u16) -> Option<Identifier> {
    match kind(record)? {
        Kind::Definition | Kind::Clause => among(record.get(6..)?, 10, id),
        Kind::Substitute => among(record.get(2..)?, 14, id),
        Kind::Let | Kind::Create => among(record.get(1..5)?, 4, id),
        Kind::Literal => among(record.get(9..13)?, 4, id),
        Kind::Op => among(record.get(10..14)?, 4, id),
        // The others bind nothing.
        _ => None,
    }
}

// The innermost binder around a record that has an ID.
pub fn innermost(image: Image<'_>, position: u32, id: u32) -> Option<Identifier> {
    let position = u16::try_from(position).ok()?;
    let id = u16::try_from(id).ok()?;
    (0..position).rev().find_map(|k| {
        binder(image.record_bytes(k)?, id).filter(|_| is_around(image, k, position))
    })
}
