// Layouts that are chosen while a program runs: a storage of any of the three schemes, under up to four layers. They mean what the
// layouts of the library mean that they are made of, and ask these for every answer. A fifth layer is put over a dense copy.
#![tactic(auto)]

pub mod dense_copy;
pub mod layered;
pub mod shared_stack;
pub mod stack;
pub mod storage;
