// The scope check (questions 6 to 10).
#![tactic(auto)]

// What the walk over the statements has found so far: yes, for each thing that it looks at.
#[derive(Clone, Copy)]
pub struct Verdict {
    // Each is the answer to a question, not a mark of a value that is there or not.
    // No scope has more than 64 bindings (a part of question 7).
    pub room: bool,
    // Questions 8, 9 and 10.
    pub binders: bool,
    pub uses: bool,
    pub ids: bool,
}

// What a record's clauses and what stands behind them have free, as masks over the places in scope. (That is its next, or its branches.)
#[derive(Clone, Copy)]
pub struct FreeVars {
    pub clauses: u64,
    pub next: u64,
}
