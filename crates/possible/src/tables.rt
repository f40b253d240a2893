// Each operator's images, as words of sixteen hexadecimal digits: digit n, from the low end, is the image of the set with mask n.
// A two-row operator has sixteen words: word m is for the first operand's set with mask m; and one more, its diagonal.
pub const NEGATION: u64 = 0xfebadc9876325410;

pub const CONFLATION: u64 = 0xf7d5b391e6c4a280;

pub const CLOSED_DEFAULT: u64 = 0x6666222266642220;

pub const OPEN_DEFAULT: u64 = 0x6644664466446240;

// The diagonals: the images where one choice serves both operands. The meets, the joins and the overrides give the choice back.
pub const ITSELF: u64 = 0xfedcba9876543210;

pub const IMPLICATION_OF_ITSELF: u64 = 0xccccccc844444440; // digit 5: u or g implies itself by g alone, 4

pub const GUARD_OF_ITSELF: u64 = 0xdddc999855541110;

pub const TRUTH_MEET: [u64; 16] = [
    0x0000000000000000,
    0x3333323233113210,
    0x2222222222222220,
    0x3333323233333230,
    0xfedcba9876543210,
    0xffffbaba77553210,
    0xfefebaba76763230,
    0xffffbaba77773230,
    0xaaa8aaa8aaa82220,
    0xbbbbbababbb93230,
    0xaaaaaaaaaaaa2220,
    0xbbbbbababbbb3230,
    0xfefcbab8fefc3230,
    0xffffbabafffd3230,
    0xfefebabafefe3230,
    0xffffbabaffff3230,
];

pub const TRUTH_JOIN: [u64; 16] = [
    0x0000000000000000,
    0x5554555455541110,
    0xfedcba9876543210,
    0xffdcffdc77543310,
    0x4444444444444440,
    0x5554555455545550,
    0xfedcfedc76547650,
    0xffdcffdc77547750,
    0xccccc8c8cc44c840,
    0xdddcdddcdd54d950,
    0xfedcfad8fe54fa50,
    0xffdcffdcff54fb50,
    0xcccccccccc44cc40,
    0xdddcdddcdd54dd50,
    0xfedcfedcfe54fe50,
    0xffdcffdcff54ff50,
];

pub const KNOWLEDGE_MEET: [u64; 16] = [
    0x0000000000000000,
    0x1111111111111110,
    0x3333323233113210,
    0x3333333333113310,
    0x5554555455541110,
    0x5555555555551110,
    0x7777777677553310,
    0x7777777777553310,
    0xfedcba9876543210,
    0xffddbb9977553310,
    0xffffbaba77553210,
    0xffffbbbb77553310,
    0xffdcffdc77543310,
    0xffddffdd77553310,
    0xfffffffe77553310,
    0xffffffff77553310,
];

pub const KNOWLEDGE_JOIN: [u64; 16] = [
    0x0000000000000000,
    0xfedcba9876543210,
    0xaaa8aaa8aaa82220,
    0xfefcbab8fefc3230,
    0xccccc8c8cc44c840,
    0xfedcfad8fe54fa50,
    0xeeeceae8eeecea60,
    0xfefcfaf8fefcfa70,
    0x8888888888888880,
    0xfedcba98fedcba90,
    0xaaa8aaa8aaa8aaa0,
    0xfefcbab8fefcbab0,
    0xccccc8c8ccccc8c0,
    0xfedcfad8fedcfad0,
    0xeeeceae8eeeceae0,
    0xfefcfaf8fefcfaf0,
];

pub const IMPLICATION: [u64; 16] = [
    0x0000000000000000,
    0x4444444444444440,
    0x4444444444444440,
    0x4444444444444440,
    0xfedcba9876543210,
    0xfedcfedc76547650, // digit 2: u or g implies d is d or g, 6
    0xfedcfedc76547650,
    0xfedcfedc76547650,
    0xfedcba9876543210,
    0xfedcfedc76547650,
    0xfedcfedc76547650,
    0xfedcfedc76547650,
    0xfedcba9876543210,
    0xfedcfedc76547650,
    0xfedcfedc76547650,
    0xfedcfedc76547650,
];

pub const GUARD: [u64; 16] = [
    0x0000000000000000,
    0x1111111111111110,
    0x1111111111111110,
    0x1111111111111110,
    0xfedcba9876543210,
    0xffddbb9977553310,
    0xffddbb9977553310,
    0xffddbb9977553310,
    0xfedcba9876543210,
    0xffddbb9977553310,
    0xffddbb9977553310,
    0xffddbb9977553310,
    0xfedcba9876543210,
    0xffddbb9977553310,
    0xffddbb9977553310,
    0xffddbb9977553310,
];

pub const OVERRIDE_U: [u64; 16] = [
    0x0000000000000000,
    0xfedcba9876543210,
    0x2222222222222220,
    0xfefebaba76763230,
    0x4444444444444440,
    0xfedcfedc76547650,
    0x6666666666666660,
    0xfefefefe76767670,
    0x8888888888888880,
    0xfedcba98fedcba90,
    0xaaaaaaaaaaaaaaa0,
    0xfefebabafefebab0,
    0xccccccccccccccc0,
    0xfedcfedcfedcfed0,
    0xeeeeeeeeeeeeeee0,
    0xfefefefefefefef0,
];

pub const OVERRIDE_D: [u64; 16] = [
    0x0000000000000000,
    0x1111111111111110,
    0xfedcba9876543210,
    0xffddbb9977553310,
    0x4444444444444440,
    0x5555555555555550,
    0xfedcfedc76547650,
    0xffddffdd77557750,
    0x8888888888888880,
    0x9999999999999990,
    0xfedcba98fedcba90,
    0xffddbb99ffddbb90,
    0xccccccccccccccc0,
    0xddddddddddddddd0,
    0xfedcfedcfedcfed0,
    0xffddffddffddffd0,
];

pub const OVERRIDE_G: [u64; 16] = [
    0x0000000000000000,
    0x1111111111111110,
    0x2222222222222220,
    0x3333333333333330,
    0xfedcba9876543210,
    0xffddbb9977553310,
    0xfefebaba76763230,
    0xffffbbbb77773330,
    0x8888888888888880,
    0x9999999999999990,
    0xaaaaaaaaaaaaaaa0,
    0xbbbbbbbbbbbbbbb0,
    0xfedcba98fedcba90,
    0xffddbb99ffddbb90,
    0xfefebabafefebab0,
    0xffffbbbbffffbbb0,
];

pub const OVERRIDE_C: [u64; 16] = [
    0x0000000000000000,
    0x1111111111111110,
    0x2222222222222220,
    0x3333333333333330,
    0x4444444444444440,
    0x5555555555555550,
    0x6666666666666660,
    0x7777777777777770,
    0xfedcba9876543210,
    0xffddbb9977553310,
    0xfefebaba76763230,
    0xffffbbbb77773330,
    0xfedcfedc76547650,
    0xffddffdd77557750,
    0xfefefefe76767670,
    0xffffffff77777770,
];
