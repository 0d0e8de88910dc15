// The IDs in scope, in the order of binding.

#[derive(Clone, Copy)]
pub struct Scope {
    ids: [u16; Scope::MAX],
    length: usize,
}

impl Scope {
    // The most bindings in scope, for question 7.
    pub const MAX: usize = 64;

    pub fn empty() -> Scope {
        Scope {
            ids: [0; Scope::MAX],
            length: 0,
        }
    }

    pub fn len(&self) -> usize {
        self.length
    }

    // An ID that finds no room is left out.
    pub fn push(&mut self, id: u16) {
        if let Some(place) = self.ids.get_mut(self.length) {
            *place = id;
            self.length = self.length.saturating_add(1);
        }
    }

    // Back to a beginning of it.
    pub fn truncate(&mut self, length: usize) {
        self.length = self.length.min(length);
    }

    pub fn contains(&self, id: u16) -> bool {
        self.ids.iter().take(self.length).any(|own| *own == id)
    }
}
