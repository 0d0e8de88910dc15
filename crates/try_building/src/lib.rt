// Images built from lines of text, images printed as such lines, records read, answers printed, and what the bytes and
// numbers of the library's interface say. A case is a line: a name, a colon, a space, max_id, and the records.
//
//   d(1 2)    a definition with these parameters    s1 2      a Switch on 1 with two clauses
//   c(1 2)    a Call with these args                n3 2      a Create of 3 with two clauses
//   t3(1 2)   a Let of 3 with these args            e3(1)2    the same with an environment
//   l3        a Literal to 3                        k(1 2)    a clause with these parameters
//   o1 2 3    an Op of 1 and 2 to 3                 v1(2)     an Invoke of 1 with these args
//   i1        an IfC of 1                           u(1<2)    a Substitute with these pairs, 1 from 2
//   j1 2      an IfC of 1 and 2                     x0b00     a record of these bytes
//   p1        a PrintI64 of 1                       q1        the same with a newline
//   z1        an Exit of 1
//
// A variable has name 2, or name 3 as 1'3. A binding of a list is of I64 and external, or of a declared type: 1p is a producer and 1c a
// consumer of type 5, and 1p6 one of type 6.
// (1-32) is a list of 1 to 32, (7*33) has 7 for 33 times. [..]5 is five times what stands inside, and 7+ there is 7, 8, 9 and so on.
// #9 gives labels, tags and types the ID 9, which is 0 before. y00 are bytes that no record has, %7 ends the image after 7 bytes, and
// !2 7 makes its byte 2 a 7. The image has as many definitions and records as the line.
#![tactic(auto)]

pub mod answer;
pub mod assemble;
pub mod build;
pub mod codes;
pub mod image;
pub mod layout;
pub mod lists;
pub mod notation;
pub mod padded_text;
pub mod place;
pub mod reader;
pub mod record;
pub mod refusal;
pub mod sort;
pub mod sum;
pub mod text;
