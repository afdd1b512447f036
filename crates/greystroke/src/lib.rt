// The C interface: what the tally program links. Each call is thin over the library; a refusal is its number, and 0 stands for none.
#![tactic(auto)]

pub mod query; // query.rt: the coverage of one pixel by a shape
pub mod shape; // shape.rt: one shape on a lent page
pub mod column; // column.rt: the last column of a line in which it touches a pixel
pub mod list; // list.rt: one record read, a whole list checked
pub mod squeezing; // squeezing.rt: a list squeezed into a lent output
pub mod writing; // writing.rt: a header or one record written into a lent list
pub mod whole; // whole.rt: a whole list on a lent page
