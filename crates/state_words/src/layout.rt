// The numbers of the layout, and the limits of the machine; the room for callers and frames is a number of the contracts alone.
// Tags, forms and kinds of frames are words of an image, which other programs read: an enum of them would stand beside Control and Top, which
// say the same, and would need a number for each word and back.

// The words of an image.
pub const IMAGE_WORDS: usize = 16384;

// The words of its head.
pub const HEAD_WORDS: usize = 128;

// The words of an activation.
pub const ACTIVATION_WORDS: usize = 136;

// The words of a frame.
pub const FRAME_WORDS: usize = 20;

// Where the activations begin.
pub const ACTIVATIONS: usize = 128;

// Where the frames begin.
pub const FRAMES: usize = 4480;

// Where the environment of the run begins.
pub const ENVIRONMENT: usize = 14720;

// Where its entry function stands.
pub const ENTRY: usize = 14721;

// Where the slots begin in a frame.
pub const SLOTS: usize = 4;

// Where the variables begin in an activation.
pub const VARIABLES: usize = 8;

// The room for operands in a frame.
pub const SLOT_ROOM: u32 = 7;

// The room for variables in an activation.
pub const VARIABLE_ROOM: u32 = 64;

// The most saved callers, main's empty one included.
pub const CALLER_LIMIT: u32 = 14;

// The most saved callers without main's empty one.
pub const SAVED_LIMIT: usize = CALLER_LIMIT as usize - 1;

// The most frames of all activations together.
pub const FRAME_LIMIT: usize = 512;

// The tag of main() before it is entered.
pub const TAG_MAIN: u32 = 1;

// The tag of a running state.
pub const TAG_RUNNING: u32 = 2;

// The tag of an int with no callers and no frames.
pub const TAG_RETURNED: u32 = 3;

// The tag of a value.
pub const TAG_VALUE: u32 = 4;

// The tag of arith.
pub const TAG_ARITH: u32 = 5;

// The tag of abort.
pub const TAG_ABORT: u32 = 6;

// The tag of an entry function's call with an int, which no fit state has yet.
pub const TAG_CALL: u32 = 9;

// The form of a control that is the value nothing.
pub const FORM_NOTHING: u32 = 1;

// The form of one that is an int.
pub const FORM_INT: u32 = 2;

// The form of one that is a bool.
pub const FORM_BOOL: u32 = 3;

// The form of one that evaluates a node.
pub const FORM_EVAL: u32 = 4;

// The form of one that executes a statement.
pub const FORM_EXEC: u32 = 5;

// The kind of a frame that gathers an operator's operands.
pub const FRAME_OPERATOR: u32 = 1;

// The kind of one that gathers a call's arguments.
pub const FRAME_CALL: u32 = 2;

// The kind of `_ && e`.
pub const FRAME_AND: u32 = 3;

// The kind of a waiting statement.
pub const FRAME_WAIT: u32 = 4;

// The kind of `assign(x, _)`.
pub const FRAME_STORE: u32 = 5;

// The kind of `if(_, s, t)`.
pub const FRAME_BRANCH: u32 = 6;

// The kind of `return(_)`.
pub const FRAME_RETURN: u32 = 7;

// The kind of `assert(_)`.
pub const FRAME_ASSERT: u32 = 8;

// The kind of an expression's statement, whose value is dropped.
pub const FRAME_DISCARD: u32 = 9;
