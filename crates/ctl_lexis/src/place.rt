//! Places in a text while it is read.

use ctl_tree::span::Span;

/// A place, and whether a CR stands directly before it: an LF there ends no further line.
#[derive(Clone, Copy)]
pub struct Place {
    pub span: Span,
    pub behind_cr: bool,
}
