// The three separate counts of document 01: no function takes one where another is meant.

// A moment: how many commits and tidies were accepted.
#[repr(C)]
#[derive(Clone, Copy)]
pub struct Stamp(pub u32);

// The number of a row; as a count, of the rows below it.
#[repr(C)]
#[derive(Clone, Copy)]
pub struct Row(pub u32);

// The number of a value; as a count, of the values below it.
#[derive(Clone, Copy)]
pub struct Value(pub u32);
