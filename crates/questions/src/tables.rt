// The sets of truths that comparisons, "not" and "both" bring, as words of hexadecimal digits: digit n, from the low end, is for the operand n.
// A comparison has sixteen words and "both" has four: word m is for the first operand's set with mask m; and one more, the diagonal, for a row or a question
// and itself, where one choice serves both.
pub const TRUTH_ORDER: [u64; 16] = [
    0x0000000000000000,
    0x3333323233113210,
    0x1111111111111110,
    0x3333333333113310,
    0x3333222233312220,
    0x3333323233313230,
    0x3333333333313330,
    0x3333333333313330,
    0x3331333133312220,
    0x3333333333313230,
    0x3331333133313330,
    0x3333333333313330,
    0x3333333333312220,
    0x3333333333313230,
    0x3333333333313330,
    0x3333333333313330,
];

pub const KNOWLEDGE_ORDER: [u64; 16] = [
    0x0000000000000000,
    0x1111111111111110,
    0x3333313133223120,
    0x3333313133333130,
    0x3331333133312220,
    0x3331333133313330,
    0x3333333133333320,
    0x3333333133333330,
    0x3333333122222220,
    0x3333333133333330,
    0x3333333133223320,
    0x3333333133333330,
    0x3333333133332220,
    0x3333333133333330,
    0x3333333133333320,
    0x3333333133333330,
];

pub const ORDER_OF_ITSELF: u64 = 0x1111111111111110; // of either order: a row is at or below itself

pub const NOT: u64 = 0x3120;

pub const BOTH: [u64; 4] = [0x0000, 0x3210, 0x2220, 0x3230];

pub const BOTH_OF_ITSELF: u64 = 0x3210;
