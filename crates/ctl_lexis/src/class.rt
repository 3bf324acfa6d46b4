//! Classes of bytes.

/// What may begin with a byte.
#[derive(Clone, Copy)]
pub enum ByteClass {
    /// a space, a tab or a line end, which separates tokens (RM 2.2)
    Blank,
    /// begins an identifier or a reserved word (RM 2.3, 2.9)
    Letter,
    /// begins a number (RM 2.4)
    Digit,
    /// begins a string (RM 2.6)
    Quote,
    /// begins a delimiter (RM 2.2), a comment (RM 2.7) or nothing
    Other,
}
