//! Files and sinks, and what they give or take.

/// Rows: the name of a file, the piece in which it is given, the room of a read and the numbers of the calls that
/// fail; its bytes, or `none` where it can't be opened, and the counts of faults, opens and reads.
pub const FOLDERS: &str = "\
model 1 64 - => 'abcdefg' 0 1 8
model 2 64 - => 'abcdefg' 0 1 5
model 64 64 - => 'abcdefg' 0 1 2
model 64 2 - => 'abcdefg' 0 1 5
model 2 64 1,3,9 => 'abcdefg' 2 1 7
other 64 64 - => 'xyz' 0 1 2
empty 64 64 - => '' 0 1 1
mode 64 64 - => none 1 1 0
model 64 64 0 => none 1 1 0
";

/// Rows: the room of a sink, how much it takes at once and the numbers of the writes that fail; what is written of
/// two texts, one after the other, the count of faults and how many of the two failed.
pub const SINKS: &str = "\
64 1 - => 'heading, rows' 0 0
64 2 - => 'heading, rows' 0 0
13 64 - => 'heading, rows' 0 0
64 64 0 => 'rows' 1 1
64 2 1 => 'herows' 1 1
12 64 - => 'heading, row' 1 1
0 64 - => '' 2 2
";

/// Rows: the name of a file of the system; the number of bytes in a first read, and the counts of faults, opens and
/// reads.
pub const SYSTEM: &str = "\
/dev/zero => 4 0 1 1
/dev/null => 0 0 1 1
no/such/file => failed 1 1 0
/ => failed 1 1 1
";

/// Rows: the name of a file that one folder opens, behind the ones above; what opening it and one read give, and what
/// is in a buffer that was full of ones.
pub const IN_TURN: &str = "\
/dev/zero => opened 4 0000
/dev/null => opened 0 1111
/dev/zero => opened 4 0000
no/such/file => failed 0 1111
/dev/zero => opened 4 0000
";
