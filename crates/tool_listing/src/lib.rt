// A program image as text: a line for each record, what stands inside a definition, a clause or a branch further to the right, and a line
// for each closing brace. The image is one that axcut_read has accepted; of any other bytes the text says nothing that is meant.
//
//   max_id 9                          let n3_4: n5 = n6(n2_1);         switch n3_4: n5 {
//                                     lit n3_5 <- 7;                     n6(n2_7: ext i64) => {
//   def n1(n2_1: ext i64) {           n3_6 <- n2_1 + n3_5;                 ..
//     ..                              substitute n2_8 := n2_1;           }
//   }                                 create n3_9: n5 = (n2_1) {       }
//                                       ..                             if n2_1 < n3_5 {
//   n1(n2_1)                          };                                 ..
//   invoke n3_9: n5 n6(n2_1)          print_i64(n2_1);                 } else {
//   exit n2_1                         println_i64(n2_1);                 ..
//                                                                      }
//
// n3_5 is the variable with name number 3 and ID 5; a label, a tag or a type is its name alone, with the ID behind it where that is not 0.
// A book of spellings puts words for n3.
#![tactic(auto)]

pub mod annotation;
pub mod book;
pub mod line;
pub mod names;
pub mod output;
pub mod page;
pub mod walk;
