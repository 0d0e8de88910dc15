// The spellings of names, which a file may have.
use crate::failure::Failure;
use crate::files;
use tool_arguments::request::Input;
use tool_listing::book::{Book, FaultyLine};

// The text of the spellings, empty where no file has them.
pub fn read<'a>(rt: &HostRuntime, names: Option<Input<'a>>) -> Result<Vec<u8>, Failure<'a>> {
    let Some(names) = names else {
        return Ok(Vec::new(rt.alloc()));
    };
    let text = files::read(rt, names, Book::MOST)?;
    if text.len() < Book::MOST {
        Ok(text)
    } else {
        Err(Failure::LongSpellings(names))
    }
}

// The memory for the places of a book, none where no file has spellings.
pub fn places<'a>(rt: &HostRuntime, names: Option<Input<'a>>) -> Result<Vec<u32>, Failure<'a>> {
    let mut places = Vec::new(rt.alloc());
    if names.is_some() {
        places.resize(Book::NAMES, 0)?;
    }
    Ok(places)
}

// The book of these spellings. (A call of its own behind `read` and `places`, at three places: a book borrows from both, so no function could
// give all.)
pub fn book<'a, 't>(
    names: Option<Input<'a>>,
    text: &'t [u8],
    places: &'t mut [u32],
) -> Result<Book<'t, 't>, Failure<'a>> {
    match Book::of(text, places) {
        Ok(book) => Ok(book),
        Err(FaultyLine(line)) => Err(Failure::FaultyLine(names.unwrap_or(Input::Standard), line)),
    }
}
