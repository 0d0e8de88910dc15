// An image from a line of a text. What is no notation is gone past, and what has no room is left out, so that no line fails.
use crate::codes::Chirality;
use crate::image::{HEADER, body, header};
use crate::layout::{NAME, Part, TYPE, layout};
use crate::lists::{Binding, Identifier, Ty};
use crate::padded_text::{Number, PaddedText};
use crate::place::{FAR, low, plus};
use std::alloc::{AllocError, Global};

// No image has more bytes, and nothing that stands behind a call of `try_vectors`.
pub const LARGEST: usize = 65536;

// The most steps of a line.
const STEPS: u16 = 20000;

// The most items in a row.
const ITEMS: u8 = 64;

// What a line makes.
#[derive(Drop)]
pub struct Built {
    // None where it would have more bytes than any image.
    pub image: Option<Vec<u8>>,
    // The place where the line ends.
    pub end: usize,
}

#[derive(Drop)]
struct Builder<'a> {
    text: PaddedText<'a>,
    // As many bytes as an image has at most.
    image: Vec<u8>,
    // The place in the image.
    at: usize,
    records: u16,
    definitions: u16,
    // The ID of every label, tag and type.
    other: u16,
}

impl<'a> Builder<'a> {
    fn new(text: PaddedText<'a>, image: Vec<u8>, at: usize) -> Builder<'a> {
        Builder {
            text,
            image,
            at,
            records: 0,
            definitions: 0,
            other: 0,
        }
    }

    // All that the line has.
    fn line(&mut self) {
        for _ in 0..STEPS {
            if self.text.is_ended() {
                break;
            }
            self.step();
        }
    }

    fn step(&mut self) {
        let sign = self.text.byte();
        self.text.skip(1);
        match sign {
            b'a'..=b'x' | b'z' => self.record(sign),
            b'y' => self.raw(),
            // [..]5 is there five times.
            b'[' => self.text.open(),
            b']' => self.text.close(),
            // #9 gives labels, tags and types the ID 9.
            b'#' => self.other = self.text.number().id(),
            b'!' => self.changed(),
            // %7 ends the image after 7 bytes, where nothing stands behind it.
            b'%' => self.at = self.text.number().value,
            _ => {}
        }
    }

    // !2 7 makes byte 2 of the image a 7.
    fn changed(&mut self) {
        let place = self.text.number().value;
        let [value, _] = self.text.number().id().to_le_bytes();
        self.set(place, value);
    }

    // The record of a letter, with its pair.
    fn record(&mut self, letter: u8) {
        let from = self.at;
        if letter == b'x' {
            self.raw();
        } else {
            for part in layout(letter) {
                self.part(*part);
            }
        }
        self.set_pair(from);
        self.records = self.records.saturating_add(1);
        if letter == b'd' {
            self.definitions = self.definitions.saturating_add(1);
        }
    }

    fn part(&mut self, part: Part) {
        match part {
            Part::Kind(kind) => self.put(kind as u8),
            Part::Byte(byte) => self.put(byte),
            Part::Variable => self.variable(),
            Part::Count => {
                let [n, _] = self.text.number().id().to_le_bytes();
                self.put(n);
            }
            Part::Bindings => self.bindings(),
            Part::Pairs => self.pairs(),
            Part::Named(name) => self.put_identifier(Identifier {
                name,
                id: self.other,
            }),
            Part::Space => {}
        }
    }

    fn variable(&mut self) {
        let variable = self.text.number().identifier();
        self.put_identifier(variable);
    }

    // Bytes as they stand, each as two hexadecimal digits.
    fn raw(&mut self) {
        for _ in 0..ITEMS {
            match self.text.hex_byte() {
                Some(byte) => self.put(byte),
                None => break,
            }
        }
    }

    // A list begins: the place of its count, for which there is room now.
    fn open_list(&mut self) -> usize {
        self.text.skip(1);
        let count = self.at;
        self.at = plus(count, 1);
        count
    }

    // The list of n items ends, whose count is at a place.
    fn close_list(&mut self, count: usize, n: usize) {
        let [n, _] = low(n).to_le_bytes();
        self.set(count, n);
        self.text.skip(1);
    }

    // A count and the bindings of a list.
    fn bindings(&mut self) {
        let count = self.open_list();
        let mut n = 0;
        for _ in 0..ITEMS {
            if !self.text.is_at_digit() {
                break;
            }
            n = plus(n, self.item());
        }
        self.close_list(count, n);
    }

    // A binding, a run of them as 3-7, or one again and again as 3*5; and how many there are.
    fn item(&mut self) -> usize {
        let first = self.text.number();
        if self.text.eat(b'-') {
            let last = self.text.number();
            let more = last.value.checked_sub(first.value);
            let n = more.map_or(0, |more| plus(more, 1));
            self.run(first.value, 1, last.name, n);
            n
        } else if self.text.eat(b'*') {
            let n = self.text.number();
            self.run(first.value, 0, n.name, n.value);
            n.value
        } else {
            self.binding(first);
            1
        }
    }

    // n bindings of I64, from an ID on in steps.
    fn run(&mut self, first: usize, step: usize, name: u16, n: usize) {
        let mut id = first;
        for _ in 0..n {
            // From here on nothing changes.
            if self.at == FAR {
                break;
            }
            let variable = Identifier { name, id: low(id) };
            self.put_binding(external(variable));
            id = plus(id, step);
        }
    }

    // A binding of a variable: of I64, or with a p or a c, and the type's name behind it, of a declared type.
    fn binding(&mut self, variable: Number) {
        let binding = if self.text.eat(b'p') {
            self.declared(variable, Chirality::Producer)
        } else if self.text.eat(b'c') {
            self.declared(variable, Chirality::Consumer)
        } else {
            external(variable.identifier())
        };
        self.put_binding(binding);
    }

    fn declared(&mut self, variable: Number, chirality: Chirality) -> Binding {
        let name = self.text.decimal().map_or(TYPE, low);
        self.text.eat(b' ');
        Binding {
            variable: variable.identifier(),
            chirality,
            ty: Ty::Declared(Identifier {
                name,
                id: self.other,
            }),
        }
    }

    // A count and the pairs of a list, as 1<2. (No one function for this and `bindings`: a run and a repetition are of bindings alone.)
    fn pairs(&mut self) {
        let count = self.open_list();
        let mut n = 0;
        for _ in 0..ITEMS {
            if !self.text.is_at_digit() {
                break;
            }
            let target = self.text.number();
            self.binding(target);
            self.text.skip(1);
            self.variable();
            n = plus(n, 1);
        }
        self.close_list(count, n);
    }
}

impl Builder<'_> {
    // A byte that has no room is left out, here and below.
    fn set(&mut self, at: usize, byte: u8) {
        if let Some(place) = self.image.get_mut(at) {
            *place = byte;
        }
    }

    fn set_half(&mut self, at: usize, v: u16) {
        let [lower, upper] = v.to_le_bytes();
        self.set(at, lower);
        self.set(plus(at, 1), upper);
    }

    // The pair of the record at hand, which begins at a place and ends here, if it doesn't end before.
    fn set_pair(&mut self, from: usize) {
        let pair = body(self.records);
        self.set_half(pair, low(from));
        if let Some(length) = self.at.checked_sub(from) {
            self.set_half(plus(pair, 2), low(length));
        }
    }

    fn put(&mut self, byte: u8) {
        self.set(self.at, byte);
        self.at = plus(self.at, 1);
    }

    fn put_half(&mut self, v: u16) {
        self.set_half(self.at, v);
        self.at = plus(self.at, 2);
    }

    fn put_identifier(&mut self, identifier: Identifier) {
        self.put_half(identifier.name);
        self.put_half(identifier.id);
    }

    fn put_binding(&mut self, binding: Binding) {
        self.put_identifier(binding.variable);
        self.put(binding.chirality as u8);
        match binding.ty {
            Ty::I64 => {
                self.put(0);
                self.put_identifier(Identifier { name: 0, id: 0 });
            }
            Ty::Declared(name) => {
                self.put(1);
                self.put_identifier(name);
            }
        }
    }

    fn set_header(&mut self, max_id: u16) {
        for (at, byte) in header(self.definitions, max_id, self.records)
            .iter()
            .enumerate()
        {
            self.set(at, *byte);
        }
    }
}

// A binding of I64.
fn external(variable: Identifier) -> Binding {
    Binding {
        variable,
        chirality: Chirality::External,
        ty: Ty::I64,
    }
}

// The image of a line of a text, from the colon at hand on: max_id, and records. They are counted first, since the pairs come before them; what
// was written for that stays where nothing comes over it.
pub fn assemble(alloc: Global, text: PaddedText<'_>) -> Result<Built, AllocError> {
    let mut text = text;
    text.skip(2);
    let max_id = text.number().id();
    let mut counting = Builder::new(text, vec![in alloc; 0; LARGEST]?, HEADER);
    counting.line();
    counting.set_header(max_id);
    let at = body(counting.records);
    let mut builder = Builder::new(text, counting.image, at);
    builder.line();
    let mut image = builder.image;
    let length = builder.at;
    image.truncate(length);
    Ok(Built {
        image: if length <= LARGEST { Some(image) } else { None },
        end: builder.text.place(),
    })
}
