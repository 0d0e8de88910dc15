// The image of a program: its layout, and the answers to a call. The format itself is defined in specs/.
#![tactic(auto)]

ghost use Rattle.std.specs.Prelude.{◌≡◌, ◌≤◌, ◌<◌};
ghost use Rattle.image_spec.specs.Layout.{layout1, header_size, body_at};
ghost use Rattle.image_spec.specs.Answers.{number_of};

// What the fields of an image measure.
#[derive(Clone, Copy, PartialEq, Eq, Debug)]
pub struct Layout {
    pub number: u32,
    // The bytes of an ID.
    pub id: usize,
    // The bytes of an offset, of a length and of the number of records.
    pub place: usize,
    // The bytes of the largest image.
    pub largest: usize,
}

impl Layout {
    // The limits of an image: its records, a count in one of them, and its statements' depth.
    pub const MAX_RECORDS: usize = 4000;

    pub const MAX_COUNT: u8 = 128;

    pub const MAX_DEPTH: usize = 128;

    // The depth that is left below a statement.
    pub const DEPTH_BELOW: usize = Layout::MAX_DEPTH - 1;

    // The largest ID of layout 1 (question 11), and how many there are.
    pub const MAX_ID: u32 = 65535;

    pub const IDS: usize = 65536;

    pub fn one() -> Layout
        ensures { result ≡ layout1 }
    {
        Layout {
            number: 1,
            id: 2,
            place: 2,
            largest: 65535,
        }
    }

    // Where the directory of an image begins: behind layout number, definitions, max_id and records.
    pub fn directory_at(self) -> usize
        requires { (self.id ≤ 4) × (self.place ≤ 4) }
        ensures { result ≡ header_size self }
    {
        2 + (2 + (self.id + self.place))
    }

    // Where the records of an image of n records begin: behind its directory, of a pair for each.
    pub fn records_at(self, n: usize) -> usize
        requires { (self.id ≤ 4) × ((self.place ≤ 4) × (n < 65536)) }
        ensures { result ≡ body_at self n }
    {
        self.directory_at() + n * (self.place + self.place)
    }
}

// The first question that is answered no, in document 01's order, with the number for no.
#[derive(Clone, Copy, PartialEq, Eq, Debug)]
pub enum Refusal {
    Size = 1,
    LayoutNumber = 2,
    Directory = 3,
    RecordForm = 4,
    Shape = 5,
    Linearized = 6,
    Limits = 7,
    Binders = 8,
    Scope = 9,
    MaxId = 10,
    Draws = 11,
    Room = 12,
    Place = 13,
}

impl Refusal {
    // The number for no. (No `From`: `u32::from(question)` would not say which number it is.)
    pub fn number(self) -> u32
        ensures { result ≡ number_of self }
    {
        self as u32
    }
}

// What an accepted call reports: the bytes that were written and the max_id.
#[derive(Clone, Copy, PartialEq, Eq, Debug)]
pub struct Accepted {
    pub length: usize,
    pub max_id: u32,
}

// The answer to a call: what it reports, or the question that refused it.
pub type Answer = Result<Accepted, Refusal>;
