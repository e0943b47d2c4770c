use crate::line::Line;

/// The bytes at hand, as a line or a part of one.
#[derive(Drop)]
pub enum AtHand {
    /// A line whose line feed was at hand. The line feed is removed.
    Line(Line),
    /// The beginning of a line whose line feed has not been read yet. All bytes at hand are used.
    Part(Line),
    /// The reader reported its end. This is the last line, which lacks its line feed, if it isn't
    /// empty.
    End(Option<Line>),
}
