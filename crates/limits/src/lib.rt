// The limits of rules, boards and lines of calls (document 01), and the sizes of tables and buffers
// that follow from them: numbers and no code. specs/Limits.antt has the numbers that definitions
// and contracts cite.
#![tactic(auto)]

// The most states of a rule: a set of states is a 32-bit mask.
pub const STATES: usize = 32;

// The same, in the type in which a rule has it.
pub const MOST_STATES: u8 = STATES as u8;

// Stands for no state where the delegate of a state is due: the first number that no state can
// have.
pub const NO_DELEGATE: u8 = MOST_STATES;

// The most symbols of a rule.
pub const SYMBOLS: usize = 16;

// The same, in the type in which a rule has it.
pub const MOST_SYMBOLS: u8 = SYMBOLS as u8;

// The most sets that get a number.
pub const SETS: usize = 512;

// Stands for the empty set, which gets no number, where a set's number is due: the first number
// that no set can have.
pub const EMPTY: u16 = SETS as u16;

// The numbered sets and the empty set, each of which has a class.
pub const CLASSES: usize = SETS + 1;

// The cells of a rule's targets: a mask for each state and symbol.
pub const TARGETS: usize = STATES * SYMBOLS;

// The cells of the next-set table: a set's number for each set and symbol.
pub const CELLS: usize = SETS * SYMBOLS;

// The most places of a board.
pub const PLACES: usize = 64;

// The same, in the type in which a board has it.
pub const MOST_PLACES: u8 = PLACES as u8;

// The cells of a board's end sets: a mask for each place and state.
pub const ENDS: usize = PLACES * STATES;

// The most bytes of a chunk.
pub const CHUNK: usize = 65536;

// The most bytes of a rule file.
pub const FILE: usize = 32906;

// The bytes of a rule as a value on a line of calls: n, k, and 4 for each of its masks.
pub const PACKED: usize = 2 + 4 * (2 + TARGETS);

// Room for a rule file, with a byte to spare: a longer file fills it.
pub const FILE_ROOM: usize = FILE + 1;

// The largest number on a line of calls: the largest of 64 bits.
pub const NUMBER: u64 = 18446744073709551615;

// The most digits of a number on a line of calls.
pub const DIGITS: usize = 20;

// The largest revision of a delivery (document 02, R-11): the largest number of 32 bits.
pub const REVISION: u64 = 4294967295;

// Room for the bytes of a chunk on a line, with one to spare: a longer chunk fills it.
pub const BYTES: usize = CHUNK + 1;

// Room for what is kept of a line: `deliver `, the digits of a place, a space, the digits of a
// revision, a space, two hex digits for each of BYTES bytes, and one byte more.
pub const LINE: usize = 8 + DIGITS + 1 + DIGITS + 1 + 2 * BYTES + 1;

// Room for the answer to a line: of a word and four numbers, each behind a space.
pub const ANSWER: usize = 96;

// Room for the printed text of any rule.
pub const RULE_TEXT: usize = 40960;

// Room for the drawing of any rule.
pub const GRAPH_TEXT: usize = 75000;

// Room for the lines that a program of cases reads.
pub const CASES_TEXT: usize = 400000;
