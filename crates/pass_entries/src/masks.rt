// Masks: sets of places in scope as the bits of a number.
ghost use Rattle.std.specs.Prelude.{◌≡◌};
ghost use Rattle.pass_entries.specs.Masks.{marked, with_bit_lem};

// Is the bit at this place set? None is past the mask's width.
pub fn bit(mask: u64, place: u8) -> bool
    ensures { result ≡ marked mask place }
{
    place < 64 && (mask >> place) % 2 == 1
}

// The mask with the bit at this place set. A place past the mask's width leaves it as it is.
pub fn with_bit(mask: u64, place: u8) -> u64
    ensures { result ≡ with_bit_lem mask place }
{
    if place < 64 {
        mask | (1 << place)
    } else {
        mask
    }
}
