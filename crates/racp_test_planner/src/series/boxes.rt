//! Boxes of capacity vectors, with the order of their vectors worked out by hand.

/// A box of capacity vectors, and its vectors: all of them, or the first ones.
#[derive(Clone, Copy)]
pub(crate) struct Boxed {
    pub(crate) prices: &'static [u32],
    pub(crate) owned: &'static [u32],
    pub(crate) floors: &'static [u32],
    pub(crate) roofs: &'static [u32],
    pub(crate) pairs: &'static [(u32, u32)],
    pub(crate) vectors: &'static [&'static [u32]],
    pub(crate) all: bool,
}

/// 1 and 2 units of each of two resources, if each unit costs 1.
pub(crate) const UNITS_OF_TWO: Boxed = Boxed {
    prices: &[1, 1],
    owned: &[0, 0],
    floors: &[1, 1],
    roofs: &[2, 2],
    pairs: &[],
    vectors: &[&[1, 1], &[1, 2], &[2, 1], &[2, 2]],
    all: true,
};

pub(crate) const BOXES: &[Boxed] = &[
    UNITS_OF_TWO,
    Boxed {
        prices: &[0, 1],
        vectors: &[&[1, 1], &[2, 1], &[1, 2], &[2, 2]],
        ..UNITS_OF_TWO
    },
    Boxed {
        prices: &[0, 0],
        ..UNITS_OF_TWO
    },
    Boxed {
        pairs: &[(1, 2)],
        vectors: &[&[1, 2], &[2, 1], &[2, 2]],
        ..UNITS_OF_TWO
    },
    Boxed {
        owned: &[2, 0],
        vectors: &[&[1, 1], &[2, 1], &[1, 2], &[2, 2]],
        ..UNITS_OF_TWO
    },
    Boxed {
        prices: &[3, 2],
        owned: &[0, 0],
        floors: &[0, 0],
        roofs: &[2, 3],
        pairs: &[],
        vectors: &[
            &[0, 0],
            &[0, 1],
            &[1, 0],
            &[0, 2],
            &[1, 1],
            &[0, 3],
            &[2, 0],
            &[1, 2],
            &[2, 1],
            &[1, 3],
            &[2, 2],
            &[2, 3],
        ],
        all: true,
    },
    Boxed {
        prices: &[1, 1, 1],
        owned: &[0, 0, 0],
        floors: &[0, 0, 0],
        roofs: &[5_120_000, 5_120_000, 5_120_000],
        pairs: &[],
        vectors: &[
            &[0, 0, 0],
            &[0, 0, 1],
            &[0, 1, 0],
            &[1, 0, 0],
            &[0, 0, 2],
            &[0, 1, 1],
        ],
        all: false,
    },
    Boxed {
        prices: &[1; 16],
        owned: &[0; 16],
        floors: &[0; 16],
        roofs: &[5_120_000; 16],
        pairs: &[],
        vectors: &[
            &[0; 16],
            &[0, 0, 0, 0, 0, 0, 0, 0, 0, 0, 0, 0, 0, 0, 0, 1],
            &[0, 0, 0, 0, 0, 0, 0, 0, 0, 0, 0, 0, 0, 0, 1, 0],
        ],
        all: false,
    },
];
