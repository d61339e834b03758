// Copies of a draft's tables, each with room for the longest that a book may have.
use crate::table::Table;

#[derive(Clone, Copy)]
pub struct Copies {
    pub classes: usize,
    pub class_table: [u8; 256],
    pub step_table: Table<4096>,
    pub accept_table: Table<128>,
    pub rule_table: Table<128>,
    pub start_table: Table<16>,
}
