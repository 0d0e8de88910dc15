// The steppers as text: runs with a line for each event, and states. An image is one that the stepper has accepted, a store one that it has
// accepted with that image; of any other bytes the text says nothing that is meant. docs/FORMAT.md has the bytes of both.
//
//   lit <- 7                          a Literal                if then, if else         an IfC
//   <- 20                             an Op                    print_i64(5)             a PrintI64
//   let cell:0 = n4                   a Let                    println_i64(5)           the same with a newline
//   switch cell:0 n4                  a Switch                 exit 20                  an Exit
//   create cell:1                     a Create                 n9()                     a Call
//   invoke cell:1 n6                  an Invoke
//   invoke outside:2 n6(7, cell:0)    an Invoke of an outside number
//
// A value is an integer, cell: and the number of a cell, or outside: and an outside number. Names are those of a listing.
#![tactic(auto)]

pub mod event;
pub mod machine;
pub mod run;
pub mod scope;
pub mod standing;
pub mod state;
pub mod store;
pub mod value;
