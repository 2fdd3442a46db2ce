//! Values of operators, written out from the standard or by hand from its words.

use crate::digits::{bits, reads};
use Bit4::{One, X, Zero};
use std::process::Abort;
use vs_four::{
    Bit4, Bits, add, and, clog2, cut, div, equal, extend, join, less, matches_x, matches_z, merge,
    mul, neg, not, or, pow, reduce_and, reduce_or, reduce_xor, rem, same, shift_arith, shift_left,
    shift_right, sub, truth, xnor, xor,
};

/// A vector, and then the conjunction, the disjunction and the parity of its bits.
const REDUCTIONS: [(&[u8; 4], Bit4, Bit4, Bit4); 6] = [
    (b"0000", Zero, Zero, Zero),
    (b"1111", One, One, Zero),
    (b"0110", Zero, One, Zero),
    (b"1000", Zero, One, One),
    (b"x000", Zero, X, X),
    (b"z111", X, One, X),
];

/// Each two vectors, and then `==`, `===`, and the matches of `casez` and of `casex`.
const EQUALITIES: [(&[u8; 4], &[u8; 4], [Bit4; 4]); 9] = [
    (b"1x0x", b"0xxx", [Zero, Zero, Zero, Zero]),
    (b"1x0x", b"1x00", [X, Zero, Zero, One]),
    (b"1x0x", b"1x0x", [X, One, One, One]),
    (b"1z0z", b"1z0z", [X, One, One, One]),
    (b"1001", b"1001", [One, One, One, One]),
    (b"001z", b"0011", [X, Zero, One, One]),
    (b"001x", b"0011", [X, Zero, Zero, One]),
    (b"00x0", b"0011", [Zero, Zero, Zero, Zero]),
    (b"z000", b"x000", [X, Zero, One, One]),
];

/// A vector, and the least power of 2 that isn't below its number.
const LOGARITHMS: [(&[u8; 4], Option<u32>); 6] = [
    (b"0000", Some(0)),
    (b"0001", Some(0)),
    (b"0100", Some(2)),
    (b"0101", Some(3)),
    (b"1111", Some(4)),
    (b"z000", None),
];

/// The value is written so.
fn expect(rt: &impl Abort, value: Bits, text: &[u8]) {
    assert!(rt; reads(value, text), "{text:?}");
}

/// There is a value, and it is written so, or there is none, and that is said.
fn expect_if_any(rt: &impl Abort, value: Option<Bits>, text: &[u8]) {
    let is_so = match value {
        Some(value) => reads(value, text),
        None => text == b"none".as_slice(),
    };
    assert!(rt; is_so, "{text:?}");
}

/// The bit is this one.
fn expect_bit(rt: &impl Abort, value: Bit4, bit: Bit4) {
    assert_eq!(rt; value, bit);
}

#[test]
fn logic(rt: HostRuntime) {
    // Tables 5-12 to 5-16, and 5-21 for a choice by an unknown condition.
    let a = bits(b"00001111xxxxzzzz");
    let b = bits(b"01xz01xz01xz01xz");
    expect(&rt, and(a, b), b"000001xx0xxx0xxx");
    expect(&rt, or(a, b), b"01xx1111x1xxx1xx");
    expect(&rt, xor(a, b), b"01xx10xxxxxxxxxx");
    expect(&rt, xnor(a, b), b"10xx01xxxxxxxxxx");
    expect(&rt, merge(a, b), b"0xxxx1xxxxxxxxxx");
    expect(&rt, not(b), b"10xx10xx10xx10xx");
    for (text, conjunction, disjunction, parity) in REDUCTIONS {
        let a = bits(text);
        expect_bit(&rt, reduce_and(a), conjunction);
        expect_bit(&rt, reduce_or(a), disjunction);
        expect_bit(&rt, truth(a), disjunction);
        expect_bit(&rt, reduce_xor(a), parity);
    }
    expect_bit(&rt, reduce_and(bits(b"z")), X);
}

#[test]
fn equalities(rt: HostRuntime) {
    for (a, b, expected) in EQUALITIES {
        let (a, b) = (bits(a), bits(b));
        assert_eq!(rt;
            [equal(a, b), same(a, b), matches_z(a, b), matches_x(a, b)],
            expected
        );
    }
}

#[test]
fn lengths(rt: HostRuntime) {
    expect(&rt, extend(bits(b"z01"), 7, true), b"zzzzz01");
    expect(&rt, extend(bits(b"x01"), 8, false), b"00000x01");
    expect(
        &rt,
        extend(bits(b"x"), 64, true),
        b"xxxxxxxxxxxxxxxxxxxxxxxxxxxxxxxxxxxxxxxxxxxxxxxxxxxxxxxxxxxxxxxx",
    );
    expect(&rt, cut(bits(b"10xz110"), 1), b"0");
    expect(&rt, cut(bits(b"10xz1101"), 7), b"0xz1101");
    expect(&rt, join(bits(b"1"), bits(b"zx00000")), b"1zx00000");
    let high = bits(b"111111111111111111111111111111111111111111111111111111111111111");
    expect(
        &rt,
        join(high, bits(b"z")),
        b"111111111111111111111111111111111111111111111111111111111111111z",
    );
}

#[test]
fn numbers(rt: HostRuntime) {
    let ones = bits(b"1111111111111111111111111111111111111111111111111111111111111111");
    let one = bits(b"0000000000000000000000000000000000000000000000000000000000000001");
    expect_bit(&rt, same(mul(ones, ones), one), One);
    expect(&rt, add(bits(b"1111111"), bits(b"0000010")), b"0000001");
    expect(&rt, sub(bits(b"00000001"), bits(b"00000010")), b"11111111");
    expect(&rt, add(bits(b"0z"), bits(b"01")), b"xx");
    expect(&rt, neg(bits(b"0011")), b"1101");
    expect(&rt, neg(bits(b"1")), b"1");
}

#[test]
fn orders(rt: HostRuntime) {
    let (eight, seven) = (bits(b"1000"), bits(b"0111"));
    expect_bit(&rt, less(eight, seven, true), One);
    expect_bit(&rt, less(eight, seven, false), Zero);
    expect_bit(&rt, less(seven, seven, false), Zero);
    expect_bit(&rt, less(bits(b"0x"), bits(b"11"), false), X);
    for (text, expected) in LOGARITHMS {
        assert_eq!(rt; clog2(bits(text)), expected);
    }
}

#[test]
fn quotients(rt: HostRuntime) {
    let dividend = bits(b"1001");
    let divisor = bits(b"0010");
    expect_if_any(&rt, div(dividend, divisor, true), b"1101");
    expect_if_any(&rt, rem(dividend, divisor, true), b"1111");
    expect_if_any(&rt, div(dividend, divisor, false), b"0100");
    expect_if_any(&rt, rem(dividend, divisor, false), b"0001");
    expect_if_any(&rt, div(bits(b"1000"), bits(b"1111"), true), b"1000");
    expect_if_any(&rt, div(dividend, bits(b"0000"), false), b"none");
    expect_if_any(&rt, rem(dividend, bits(b"001x"), false), b"none");
}

#[test]
fn powers(rt: HostRuntime) {
    let (three, fifteen, zero) = (bits(b"0011"), bits(b"1111"), bits(b"0000"));
    expect_if_any(&rt, pow(three, bits(b"10"), false, false), b"1001");
    expect_if_any(&rt, pow(three, bits(b"11"), true, false), b"1011");
    expect_if_any(&rt, pow(fifteen, bits(b"101"), true, true), b"1111");
    expect_if_any(&rt, pow(fifteen, bits(b"110"), true, true), b"0001");
    expect_if_any(&rt, pow(fifteen, bits(b"110"), false, true), b"0000");
    expect_if_any(&rt, pow(zero, bits(b"1"), true, true), b"none");
    expect_if_any(&rt, pow(zero, bits(b"0"), true, true), b"0001");
    expect_if_any(&rt, pow(three, bits(b"x1"), false, false), b"none");
}

#[test]
fn shifts(rt: HostRuntime) {
    let a = bits(b"1111000z");
    expect(
        &rt,
        shift_arith(bits(b"11110000"), bits(b"10")),
        b"11111100",
    );
    expect(&rt, shift_right(a, bits(b"010")), b"00111100");
    expect(&rt, shift_left(a, bits(b"1")), b"111000z0");
    expect(&rt, shift_left(a, bits(b"1001")), b"00000000");
    expect(
        &rt,
        shift_arith(bits(b"x000000"), bits(b"1111111")),
        b"xxxxxxx",
    );
    expect(&rt, shift_right(a, bits(b"z")), b"xxxxxxxx");
    let top = bits(b"1000000000000000000000000000000000000000000000000000000000000000");
    expect(
        &rt,
        shift_right(top, bits(b"111111")),
        b"0000000000000000000000000000000000000000000000000000000000000001",
    );
}
