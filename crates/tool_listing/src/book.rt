// A book of spellings, from a text whose lines have a name number of at most 20 digits, a space and a spelling. An empty line, or one that
// begins with #, is a remark.

// The most digits of a name number.
const DIGITS: usize = 20;

// A view of the text, with the place of each name's spelling in it; 0 where a name has none, since a line begins with a number.
#[derive(Clone, Copy, Debug)]
pub struct Book<'t, 'p> {
    text: &'t [u8],
    places: &'p [u32],
}

// The first line of a text that is wrong, from 1.
#[derive(Clone, Copy, Debug, PartialEq, Eq)]
pub struct FaultyLine(pub usize);

fn is_remark(line: &[u8]) -> bool {
    matches!(line.first(), None | Some(b'\r' | b'#'))
}

// The name number of a line, and how many bytes stand before its spelling.
fn entry(line: &[u8]) -> Option<(u16, usize)> {
    let space = line.iter().position(|b| *b == b' ')?;
    let (digits, rest) = line.split_at_checked(space)?;
    if DIGITS < digits.len() || rest.len() < 2 || !digits.iter().all(u8::is_ascii_digit) {
        return None;
    }
    let name = str::from_utf8(digits).ok()?.parse().ok()?;
    Some((name, digits.len() + 1))
}

impl<'t, 'p> Book<'t, 'p> {
    // A text has fewer bytes.
    pub const MOST: usize = 262144;

    // How many name numbers there are: the places that a book with spellings is lent.
    pub const NAMES: usize = 65536;

    // The book without spellings.
    pub fn empty() -> Book<'t, 'p> {
        Book {
            text: &[],
            places: &[],
        }
    }

    // The book of a text, whose places are put down here. Of two lines with one number the later one counts.
    pub fn of(text: &'t [u8], places: &'p mut [u32]) -> Result<Book<'t, 'p>, FaultyLine> {
        places.fill(0);
        let mut at: usize = 0;
        for (i, line) in text.split(|b| *b == b'\n').enumerate() {
            if !is_remark(line) {
                let (name, before) = entry(line).ok_or(FaultyLine(i + 1))?;
                if let Some(place) = places.get_mut(usize::from(name)) {
                    *place = u32::try_from(at.saturating_add(before)).unwrap_or(0);
                }
            }
            at = at.saturating_add(line.len()).saturating_add(1);
        }
        Ok(Book { text, places })
    }

    // The spelling of a name, which goes to the end of its line. It is a part of the text, and may be kept longer than the places.
    pub fn spelling(self, name: u16) -> Option<&'t [u8]> {
        let place = *self.places.get(usize::from(name))? as usize;
        if place == 0 {
            return None;
        }
        let rest = self.text.get(place..)?;
        let end = rest
            .iter()
            .position(|b| matches!(b, b'\n' | b'\r'))
            .unwrap_or(rest.len());
        rest.get(..end)
    }
}
