/// A record of a log. It borrows its line.
#[derive(Clone, Copy, Debug, PartialEq, Eq)]
pub struct Record<'a> {
    /// The kind of the record: one byte, whose meaning the caller chooses. If it is printable, the
    /// columns of the file stay aligned.
    pub mark: u8,
    /// The line, of fewer than 2^32 bytes. If it has no line feed of its own, it is one line of the
    /// file.
    pub line: &'a [u8],
    /// The check of the reply to the line, by [`crate::check_of`]. 0 if no reply belongs to the
    /// line.
    pub reply_check: u32,
}
