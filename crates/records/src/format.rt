// The numbers of the procedure file: sizes, marks, types and limits.

// The bytes of a record.
pub const RECORD: usize = 12;

// The mark "PR" as a number.
pub const HEADER_MARK: u32 = 21072;

// The mark "FN" as a number.
pub const FUNCTION_MARK: u32 = 20038;

// The mark "ND" as a number.
pub const NODE_MARK: u32 = 17486;

// The most functions of a file.
pub const MOST_FUNCTIONS: usize = 128;

// The most nodes of a file.
pub const MOST_NODES: usize = 4096;

// The last edition that there is.
pub const LAST_EDITION: u32 = 1;

// The most parameters of a function.
pub const MOST_PARAMETERS: u8 = 8;

// The most variables of a function.
pub const MOST_VARIABLES: u8 = 64;

// The entries of a table by variable.
pub const VARIABLE_ENTRIES: usize = 64;

// How many kinds of nodes there are.
pub const KINDS: usize = 16;

// How many operators there are.
pub const OPERATORS: u8 = 16;

// The bytes of the shortest file.
pub const SHORTEST_FILE: usize = 36;

// The bytes of the longest file.
pub const LONGEST_FILE: usize = 50700;

// The most nodes of a tiny file: working arrays are chosen by these three numbers.
pub const TINY_NODES: usize = 32;

// The most nodes of a short file.
pub const SHORT_NODES: usize = 256;

// The most nodes of a middling file.
pub const MIDDLE_NODES: usize = 1024;

// More bytes than any file has that passes question 3.
pub const TOO_LONG: usize = 65536;

// The bytes that a program keeps of its input, one more than the longest file has.
pub const KEPT_BYTES: usize = 50701;

// The type nothing.
pub const TYPE_NOTHING: u8 = 0;

// The type int.
pub const TYPE_INT: u8 = 1;

// The type bool.
pub const TYPE_BOOL: u8 = 2;

// A want that any type meets.
pub const TYPE_ANY: u8 = 254;

// A type that is not set.
pub const TYPE_UNSET: u8 = 255;
