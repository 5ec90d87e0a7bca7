// Packets worked by hand.

// The offer of (x + 2, 0).
pub const OFFER: [u8; 19] = [2, 3, 0, 11, 0, 8, 4, 0, 19, 0, 0, 0, 0, 0, 1, 0, 0, 0, 2];

// The setting packet of x^4 + x + 1 over the field of 5.
pub const SETTING: [u8; 35] = [
    2, 1, 0, 11, 0, 4, 2, 0, 15, 0, 20, 0, 0, 0, 5, 0, 0, 0, 1, 0, 0, 0, 0, 0, 0, 0, 0, 0, 0, 0, 1,
    0, 0, 0, 1,
];
