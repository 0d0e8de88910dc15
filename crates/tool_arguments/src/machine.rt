// The machine that a step is asked of. The library's own type of it is below its interface, which has two functions of each.
#[derive(Clone, Copy, Debug, PartialEq, Eq)]
pub enum Machine {
    Source,
    Linear,
}
