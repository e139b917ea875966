//! What is found on reading a table.
use crate::variables::Variables;
use model::{Names, Row};

/// Where the choices of an atom in one kind of round begin, each with its guard's length byte.
pub type Places = Row<u16, 8>;

#[derive(Clone, Copy)]
pub struct AtomLayout {
    pub controls: Names,
    pub reads: Names,
    pub awaits: Names,
    pub initial: Places,
    pub update: Places,
}

#[derive(Clone, Copy)]
pub struct Layout {
    pub variables: Variables,
    pub atoms: Row<AtomLayout, 16>,
}
