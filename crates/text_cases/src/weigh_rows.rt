// Two automata over symbols of rank 0, 2, 3 and 1, and trees with their values in both, in each kind of field. The values were
// worked out by the definition in another language; B's are the numbers of leaves.

pub const RANKS: [u32; 4] = [0, 2, 3, 1];

// The side, the symbol, the target, the weight and the children.
pub struct GivenRule(pub u32, pub u32, pub u32, pub u32, pub &'static [u32]);

pub const RULES: [GivenRule; 17] = [
    GivenRule(0, 1, 1, 3, &[]),
    GivenRule(0, 1, 2, 1, &[]),
    GivenRule(0, 2, 1, 2, &[1, 1]),
    GivenRule(0, 3, 2, 5, &[1, 2, 1]),
    GivenRule(0, 4, 2, 4, &[1]),
    GivenRule(0, 4, 1, 6, &[2]),
    GivenRule(1, 1, 1, 1, &[]),
    GivenRule(1, 1, 2, 1, &[]),
    GivenRule(1, 2, 1, 1, &[1, 1]),
    GivenRule(1, 2, 2, 1, &[2, 1]),
    GivenRule(1, 2, 2, 1, &[1, 2]),
    GivenRule(1, 3, 1, 1, &[1, 1, 1]),
    GivenRule(1, 3, 2, 1, &[2, 1, 1]),
    GivenRule(1, 3, 2, 1, &[1, 2, 1]),
    GivenRule(1, 3, 2, 1, &[1, 1, 2]),
    GivenRule(1, 4, 1, 1, &[1]),
    GivenRule(1, 4, 2, 1, &[2]),
];

// What a tree is, its entries, and how many times its last entry is then doubled.
pub struct GivenTree(
    pub &'static str,
    pub &'static [(u32, u32, u32, u32)],
    pub usize,
);

pub const TREES: [GivenTree; 6] = [
    GivenTree("a", &[(1, 0, 0, 0)], 0),
    GivenTree("f(a, a)", &[(1, 0, 0, 0)], 1),
    GivenTree(
        "g(a, h(a), a)",
        &[(1, 0, 0, 0), (4, 1, 0, 0), (3, 1, 2, 1)],
        0,
    ),
    GivenTree(
        "f(h(h(a)), g(a, a, h(a)))",
        &[
            (1, 0, 0, 0),
            (4, 1, 0, 0),
            (4, 2, 0, 0),
            (3, 1, 1, 2),
            (2, 3, 4, 0),
        ],
        0,
    ),
    GivenTree("doubled 4 times", &[(1, 0, 0, 0)], 4),
    GivenTree("doubled 63 times", &[(1, 0, 0, 0)], 63),
];

// The weight of a rule of A from f over states 1 and 2 to state 2, and the values of the trees in A and in B.
pub struct Weighed(pub u32, pub [(u32, u32); 6]);

pub const SEVEN: Weighed = Weighed(6, [(2, 1), (6, 2), (3, 3), (6, 4), (3, 2), (4, 1)]);

pub const LARGEST: Weighed = Weighed(
    4294967290,
    [
        (9, 1),
        (27, 2),
        (1620, 3),
        (4294947851, 4),
        (1576736057, 16),
        (1972694671, 2147483658),
    ],
);

pub const OCTETS: Weighed = Weighed(200, [(5, 1), (209, 0), (79, 1), (106, 0), (30, 0), (41, 0)]);

pub const SEVEN_TOWER: Weighed = Weighed(
    2000,
    [(2, 1), (1201, 2), (3, 3), (2000, 4), (620, 2), (690, 1)],
);

pub const OCTET_PAIR: Weighed = Weighed(
    60000,
    [
        (5, 1),
        (28655, 0),
        (79, 1),
        (14218, 0),
        (65291, 0),
        (62081, 0),
    ],
);

pub const OCTET_TOWER: Weighed = Weighed(
    4000000000,
    [
        (5, 1),
        (2078050324, 0),
        (79, 1),
        (2287266304, 0),
        (1492009735, 0),
        (3318910454, 0),
    ],
);
