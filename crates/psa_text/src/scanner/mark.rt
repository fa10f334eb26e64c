/// How much of a byte order mark has been read at the front of a text.
#[derive(Debug, Clone, Copy, PartialEq, Eq, Drop)]
pub enum Mark {
    /// The text is unread.
    Unread,
    /// `EF`
    FirstByte,
    /// `EF BB`
    SecondByte,
    /// The whole mark, or the text has none.
    Passed,
}
