//! What a handle points to.

/// What a handle points to, as C knows it: nothing that C may read or write.
#[repr(C)]
#[derive(Drop)]
pub struct Opaque {
    pub tag: u8,
}
