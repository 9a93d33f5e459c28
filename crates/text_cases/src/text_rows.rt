// Texts, each with the number and the line of its fault, or none where it is accepted. These were worked out by hand from the
// format.

// What it is, how it starts, how it goes on, and the fault.
#[derive(Clone, Copy)]
pub struct Plain(
    pub &'static str,
    pub &'static str,
    pub &'static str,
    pub Option<(u32, u32)>,
);

// What it is, how it starts, a part that comes so many times, how it ends, and the fault.
#[derive(Clone, Copy)]
pub struct Repeated(
    pub &'static str,
    pub &'static str,
    pub &'static str,
    pub u32,
    pub &'static str,
    pub Option<(u32, u32)>,
);

const NOTHING: &str = "";

const TO_KIND: &str = "kind p steps\n";

const TO_SYMBOLS: &str = "kind p steps\nprime 7 0\nu v\nsymbol rank\n";

const TO_STATES: &str = "kind p steps\nprime 7 0\nu v\nsymbol rank\na 0\nf 2\nside state final\n";

const TO_RULES: &str =
    "kind p steps\nprime 7 0\nu v\nsymbol rank\na 0\nf 2\nside state final\nA q 1\nB r 1\nside symbol target weight children\n";

pub const PLAIN: [Plain; 69] = [
    Plain("empty text", NOTHING, "", Some((102, 1))),
    Plain(
        "no line feed after the first line",
        NOTHING,
        "kind p steps",
        Some((102, 1)),
    ),
    Plain(
        "another first line",
        NOTHING,
        "kind p step\n",
        Some((102, 1)),
    ),
    Plain(
        "stops after the first line",
        NOTHING,
        "kind p steps\n",
        Some((102, 2)),
    ),
    Plain(
        "modulus 4294967295",
        TO_KIND,
        "prime 4294967295 0\n",
        Some((103, 2)),
    ),
    Plain("modulus 4", TO_KIND, "prime 4 0\n", Some((103, 2))),
    Plain(
        "modulus past 32 bits",
        TO_KIND,
        "prime 4294967296 0\n",
        Some((102, 2)),
    ),
    Plain(
        "modulus with a leading zero",
        TO_KIND,
        "prime 07 0\n",
        Some((102, 2)),
    ),
    Plain("three pair steps", TO_KIND, "byte - 3\n", Some((102, 2))),
    Plain(
        "three pair steps and modulus 4",
        TO_KIND,
        "prime 4 3\n",
        Some((102, 2)),
    ),
    Plain("byte with a modulus", TO_KIND, "byte 7 0\n", Some((102, 2))),
    Plain(
        "largest modulus",
        NOTHING,
        "kind p steps\nprime 4294967291 0\nu v\nsymbol rank\na 0\nside state final\nA q 4294967290\nB r 0\nside symbol target weight children\n",
        None,
    ),
    Plain(
        "a pair with a root",
        TO_KIND,
        "prime 3 1\nu v\n0 1\n",
        Some((104, 4)),
    ),
    Plain(
        "u not below the base's size",
        TO_KIND,
        "prime 3 1\nu v\n3 2\n",
        Some((104, 4)),
    ),
    Plain(
        "v not below the base's size",
        TO_KIND,
        "prime 3 1\nu v\n0 3\n",
        Some((104, 4)),
    ),
    Plain(
        "a pair over too large a base",
        TO_KIND,
        "prime 4294967291 1\nu v\n0 2\n",
        Some((104, 4)),
    ),
    Plain(
        "a second pair over too large a base",
        TO_KIND,
        "prime 65521 2\nu v\n0 17\n1 17\n",
        Some((104, 5)),
    ),
    Plain(
        "a pair with a root and a space at the end",
        TO_KIND,
        "prime 3 1\nu v\n0 1 \n",
        Some((102, 4)),
    ),
    Plain(
        "one pair step of two",
        TO_KIND,
        "prime 3 2\nu v\n0 2\nsymbol rank\n",
        Some((102, 5)),
    ),
    Plain(
        "one pair step too many",
        TO_KIND,
        "prime 3 1\nu v\n0 2\n0 2\n",
        Some((102, 5)),
    ),
    Plain(
        "a pair over a prime field",
        TO_KIND,
        "prime 3 1\nu v\n0 2\nsymbol rank\na 0\nside state final\nA q 8\nB r 8\nside symbol target weight children\n",
        None,
    ),
    Plain(
        "a weight past a pair's size",
        TO_KIND,
        "prime 3 1\nu v\n0 2\nsymbol rank\na 0\nside state final\nA q 9\n",
        Some((105, 8)),
    ),
    Plain(
        "a tower over byte",
        TO_KIND,
        "byte - 2\nu v\n1 32\n1 8192\nsymbol rank\na 0\nside state final\nA q 4294967295\nB r 0\nside symbol target weight children\n",
        None,
    ),
    Plain(
        "no symbol",
        TO_SYMBOLS,
        "side state final\n",
        Some((102, 5)),
    ),
    Plain("rank 4", TO_SYMBOLS, "a 4\n", Some((110, 5))),
    Plain("a symbol twice", TO_SYMBOLS, "a 0\na 0\n", Some((108, 6))),
    Plain(
        "a symbol twice, with rank 4",
        TO_SYMBOLS,
        "a 0\na 4\n",
        Some((110, 6)),
    ),
    Plain(
        "rank 4 with a space at the end",
        TO_SYMBOLS,
        "a 4 \n",
        Some((102, 5)),
    ),
    Plain(
        "a name of eight bytes",
        TO_SYMBOLS,
        "a_345678 0\na_345678 0\n",
        Some((108, 6)),
    ),
    Plain(
        "a name of nine bytes",
        TO_SYMBOLS,
        "a_3456789 0\n",
        Some((102, 5)),
    ),
    Plain(
        "a name with a capital letter",
        TO_SYMBOLS,
        "aA 0\n",
        Some((102, 5)),
    ),
    Plain(
        "a name that begins with a digit",
        TO_SYMBOLS,
        "1a 0\n",
        Some((102, 5)),
    ),
    Plain(
        "a rank with a leading zero",
        TO_SYMBOLS,
        "a 00\n",
        Some((102, 5)),
    ),
    Plain("two spaces", TO_SYMBOLS, "a  0\n", Some((102, 5))),
    Plain(
        "twelve symbols",
        TO_SYMBOLS,
        "a 0\nb 0\nc 0\nd 0\ne 0\nf 0\ng 0\nh 0\ni 0\nj 0\nk 0\nl 0\nside state final\nA q 1\nB r 1\nside symbol target weight children\n",
        None,
    ),
    Plain(
        "thirteen symbols",
        TO_SYMBOLS,
        "a 0\nb 0\nc 0\nd 0\ne 0\nf 0\ng 0\nh 0\ni 0\nj 0\nk 0\nl 0\nm 0\n",
        Some((205, 17)),
    ),
    Plain(
        "a thirteenth symbol that repeats a name",
        TO_SYMBOLS,
        "a 0\nb 0\nc 0\nd 0\ne 0\nf 0\ng 0\nh 0\ni 0\nj 0\nk 0\nl 0\na 0\n",
        Some((108, 17)),
    ),
    Plain(
        "a thirteenth symbol of rank 4",
        TO_SYMBOLS,
        "a 0\nb 0\nc 0\nd 0\ne 0\nf 0\ng 0\nh 0\ni 0\nj 0\nk 0\nl 0\nm 4\n",
        Some((110, 17)),
    ),
    Plain("a state of B first", TO_STATES, "B r 1\n", Some((102, 8))),
    Plain(
        "no state of B",
        TO_STATES,
        "A q 1\nside symbol target weight children\n",
        Some((102, 9)),
    ),
    Plain(
        "a state of A after one of B",
        TO_STATES,
        "A q 1\nB r 1\nA s 1\n",
        Some((102, 10)),
    ),
    Plain("a final weight of 7", TO_STATES, "A q 7\n", Some((105, 8))),
    Plain("a state twice", TO_STATES, "A q 1\nA q 1\n", Some((108, 9))),
    Plain(
        "a state twice, with a weight of 7",
        TO_STATES,
        "A q 1\nA q 7\n",
        Some((108, 9)),
    ),
    Plain(
        "a weight of 7 with a space at the end",
        TO_STATES,
        "A q 7 \n",
        Some((102, 8)),
    ),
    Plain(
        "a side that is neither A nor B",
        TO_STATES,
        "C q 1\n",
        Some((102, 8)),
    ),
    Plain(
        "both sides with a state of one name",
        TO_STATES,
        "A q 1\nB q 1\nside symbol target weight children\n",
        None,
    ),
    Plain(
        "twelve states a side",
        TO_STATES,
        "A a 0\nA b 0\nA c 0\nA d 0\nA e 0\nA f 0\nA g 0\nA h 0\nA i 0\nA j 0\nA k 0\nA l 0\nB a 0\nB b 0\nB c 0\nB d 0\nB e 0\nB f 0\nB g 0\nB h 0\nB i 0\nB j 0\nB k 0\nB l 0\nside symbol target weight children\n",
        None,
    ),
    Plain(
        "thirteen states of A",
        TO_STATES,
        "A a 0\nA b 0\nA c 0\nA d 0\nA e 0\nA f 0\nA g 0\nA h 0\nA i 0\nA j 0\nA k 0\nA l 0\nA m 0\n",
        Some((205, 20)),
    ),
    Plain(
        "thirteen states of B",
        TO_STATES,
        "A a 0\nA b 0\nA c 0\nA d 0\nA e 0\nA f 0\nA g 0\nA h 0\nA i 0\nA j 0\nA k 0\nA l 0\nB a 0\nB b 0\nB c 0\nB d 0\nB e 0\nB f 0\nB g 0\nB h 0\nB i 0\nB j 0\nB k 0\nB l 0\nB m 0\n",
        Some((205, 32)),
    ),
    Plain(
        "a thirteenth state with a weight of 7",
        TO_STATES,
        "A a 0\nA b 0\nA c 0\nA d 0\nA e 0\nA f 0\nA g 0\nA h 0\nA i 0\nA j 0\nA k 0\nA l 0\nA m 7\n",
        Some((105, 20)),
    ),
    Plain(
        "a thirteenth state that repeats a name",
        TO_STATES,
        "A a 0\nA b 0\nA c 0\nA d 0\nA e 0\nA f 0\nA g 0\nA h 0\nA i 0\nA j 0\nA k 0\nA l 0\nA a 0\n",
        Some((108, 20)),
    ),
    Plain("no rules", TO_RULES, "", None),
    Plain(
        "an undeclared symbol",
        TO_RULES,
        "A b q 1\n",
        Some((107, 11)),
    ),
    Plain(
        "an undeclared target",
        TO_RULES,
        "A a r 1\n",
        Some((107, 11)),
    ),
    Plain(
        "an undeclared child",
        TO_RULES,
        "A f q 1 q r\n",
        Some((107, 11)),
    ),
    Plain("a child too many", TO_RULES, "A a q 1 q\n", Some((109, 11))),
    Plain("a child too few", TO_RULES, "A f q 1 q\n", Some((109, 11))),
    Plain(
        "five children",
        TO_RULES,
        "A f q 1 q q q q q\n",
        Some((109, 11)),
    ),
    Plain(
        "a weight of 7 in a rule",
        TO_RULES,
        "A a q 7\n",
        Some((105, 11)),
    ),
    Plain(
        "an undeclared symbol with a child",
        TO_RULES,
        "A b q 1 q\n",
        Some((107, 11)),
    ),
    Plain(
        "an undeclared target and a child too many",
        TO_RULES,
        "A a r 1 q\n",
        Some((109, 11)),
    ),
    Plain(
        "an undeclared target and a weight of 7",
        TO_RULES,
        "A a r 7\n",
        Some((107, 11)),
    ),
    Plain(
        "an undeclared child and a weight of 7",
        TO_RULES,
        "A f q 7 q r\n",
        Some((107, 11)),
    ),
    Plain(
        "an undeclared symbol and no weight",
        TO_RULES,
        "A b q\n",
        Some((102, 11)),
    ),
    Plain(
        "a rule of A after one of B",
        TO_RULES,
        "B a r 1\nA a q 1\n",
        Some((102, 12)),
    ),
    Plain(
        "a space at the end of a rule",
        TO_RULES,
        "A a q 1 \n",
        Some((102, 11)),
    ),
    Plain(
        "no line feed after the last line",
        TO_RULES,
        "A a q 1",
        Some((102, 11)),
    ),
    Plain("an empty line at the end", TO_RULES, "\n", Some((102, 11))),
];

pub const REPEATED: [Repeated; 8] = [
    Repeated("256 rules of A", TO_RULES, "A a q 1\n", 256, "", None),
    Repeated(
        "257 rules of A",
        TO_RULES,
        "A a q 1\n",
        257,
        "",
        Some((205, 267)),
    ),
    Repeated(
        "257 rules of B",
        TO_RULES,
        "B a r 1\n",
        257,
        "",
        Some((205, 267)),
    ),
    Repeated(
        "a 257th rule with a weight of 7",
        TO_RULES,
        "A a q 1\n",
        256,
        "A a q 7\n",
        Some((105, 267)),
    ),
    Repeated(
        "a 257th rule of an undeclared symbol",
        TO_RULES,
        "A a q 1\n",
        256,
        "A b q 1\n",
        Some((107, 267)),
    ),
    Repeated("65536 bytes", NOTHING, "a", 65536, "", Some((102, 1))),
    Repeated("65537 bytes", NOTHING, "a", 65537, "", Some((101, 0))),
    Repeated(
        "65537 bytes of lines",
        TO_RULES,
        "A a q 1\n",
        8192,
        "",
        Some((101, 0)),
    ),
];
