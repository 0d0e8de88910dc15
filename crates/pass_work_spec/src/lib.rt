// The context at work: what linearization has at hand at a statement.
#![tactic(auto)]

use syntax::context::ContextBinding;
use syntax::names::VarId;

// A binding of the context at work.
#[derive(Clone, Copy)]
pub struct Entry {
    pub binding: ContextBinding,
    // The source's variable that it stands for.
    pub source: VarId,
    // The variable's place in scope, from 0.
    pub place: u8,
    // Whether uses of the variable take the binding's spelling. A yes or no, and both have the binding.
    pub spelled: bool,
}
