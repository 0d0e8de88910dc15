// The statement Let. Its file is let_.rt, for `let` is a word of the language.
#![tactic(auto)]

pub mod let_;
