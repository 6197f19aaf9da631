// The operators, on values from outside.

use crate::rows::shows;
use numeric::*;
use syntax::operator::{IntBinary, IntCompare, IntUnary};

const I32_MIN: u32 = 0x8000_0000;

const I64_MIN: u64 = 0x8000_0000_0000_0000;

#[test]
fn counts_bits(rt: HostRuntime) {
    let counted = [
        i32_clz(0x8000),
        i32_clz(0),
        i32_ctz(8),
        i32_ctz(0),
        i32_popcnt(4_042_322_160),
    ];
    shows(&rt, counted, [16, 32, 3, 32, 16]);
    let counted = [
        i64_clz(0),
        i64_clz(1),
        i64_ctz(0),
        i64_ctz(I64_MIN),
        i64_popcnt(0xDEAD_BEEF_DEAD_BEEF),
    ];
    shows(&rt, counted, [64, 63, 64, 63, 48]);
}

#[test]
fn extends_and_wraps(rt: HostRuntime) {
    let made = [
        i32_extend8_s(128),
        i32_extend8_s(0x0123_457F),
        i32_extend16_s(0x8000),
        i32_wrap_i64(u64::MAX),
        i32_wrap_i64(i64_shr_u(i64_extend32_s(0x8000_0000), 63)),
        i32_wrap_i64(i64_shr_u(i64_extend_i32_u(u32::MAX), 32)),
        i32_wrap_i64(i64_shr_u(i64_extend_i32_s(u32::MAX), 32)),
    ];
    shows(
        &rt,
        made,
        [0xFFFF_FF80, 0x7F, 0xFFFF_8000, u32::MAX, 1, 0, u32::MAX],
    );
    let extended = [
        i64_extend8_s(0xFEDC_BA98_7654_3280),
        i64_extend16_s(0x1_7FFF),
    ];
    shows(&rt, extended, [0xFFFF_FFFF_FFFF_FF80, 0x7FFF]);
}

#[test]
fn adds_and_multiplies(rt: HostRuntime) {
    let made = [
        i32_add(0x7FFF_FFFF, 1),
        i32_sub(0, 1),
        i32_mul(0x0123_4567, 0x7654_3210),
    ];
    shows(&rt, made, [I32_MIN, u32::MAX, 0x358E_7470]);
    let made = [
        i64_add(u64::MAX, 1),
        i64_sub(I64_MIN, 1),
        i64_mul(0x0123_4567_89AB_CDEF, 0xFEDC_BA98_7654_3210),
    ];
    shows(&rt, made, [0, 0x7FFF_FFFF_FFFF_FFFF, 0x2236_D88F_E561_8CF0]);
}

#[test]
fn divides(rt: HostRuntime) {
    let divided = [
        i32_div_s(4_294_967_289, 2),
        i32_rem_s(4_294_967_289, 2),
        i32_div_u(4_294_967_289, 2),
        i32_rem_u(4_294_967_289, 2),
        i32_rem_s(I32_MIN, u32::MAX),
    ];
    let wanted = [
        Ok(4_294_967_293),
        Ok(4_294_967_295),
        Ok(2_147_483_644),
        Ok(1),
        Ok(0),
    ];
    shows(&rt, divided, wanted);
    let divided = [
        i64_div_s(7, 0xFFFF_FFFF_FFFF_FFFE),
        i64_rem_s(7, 0xFFFF_FFFF_FFFF_FFFE),
        i64_div_u(I64_MIN, u64::MAX),
        i64_rem_u(I64_MIN, u64::MAX),
        i64_rem_s(I64_MIN, u64::MAX),
    ];
    let wanted = [Ok(0xFFFF_FFFF_FFFF_FFFD), Ok(1), Ok(0), Ok(I64_MIN), Ok(0)];
    shows(&rt, divided, wanted);
}

#[test]
fn traps(rt: HostRuntime) {
    for operator in [
        IntBinary::DivS,
        IntBinary::DivU,
        IntBinary::RemS,
        IntBinary::RemU,
    ] {
        let by_zero = (i32_binary(operator, 1, 0), i64_binary(operator, 1, 0));
        shows(
            &rt,
            by_zero,
            (Err(Trap::DivideByZero), Err(Trap::DivideByZero)),
        );
    }
    let least = (i32_div_s(I32_MIN, u32::MAX), i64_div_s(I64_MIN, u64::MAX));
    shows(&rt, least, (Err(Trap::Overflow), Err(Trap::Overflow)));
    shows(
        &rt,
        (Trap::DivideByZero.code(), Trap::Overflow.code()),
        (2, 3),
    );
}

#[test]
fn combines_bits(rt: HostRuntime) {
    let combined = [
        i32_and(0xF0F0_FFFF, 0xFFFF_F0F0),
        i32_or(0xF0F0_FFFF, 0xFFFF_F0F0),
        i32_xor(0xF0F0_FFFF, 0xFFFF_F0F0),
    ];
    shows(&rt, combined, [0xF0F0_F0F0, 0xFFFF_FFFF, 0x0F0F_0F0F]);
    let combined = [
        i64_and(0xF0F0_FFFF, 0xFFFF_F0F0),
        i64_or(0xF0F0_0000, 0x0000_F0F0),
        i64_xor(u64::MAX, 0xFFFF_F0F0),
    ];
    shows(
        &rt,
        combined,
        [0xF0F0_F0F0, 0xF0F0_F0F0, 0xFFFF_FFFF_0000_0F0F],
    );
}

#[test]
fn shifts_and_rotates(rt: HostRuntime) {
    let moved = [
        i32_shl(1, 33),
        i32_shr_s(2_147_483_648, 31),
        i32_shr_u(I32_MIN, 63),
        i32_rotl(2_147_483_649, 33),
        i32_rotr(0xB0C1_D2E3, 5),
    ];
    shows(&rt, moved, [2, 4_294_967_295, 1, 3, 0x1D86_0E97]);
    let moved = [
        i64_shl(1, 64),
        i64_shr_s(I64_MIN, 62),
        i64_shr_u(I64_MIN, 127),
        i64_rotl(0xABCD_9876_0246_8ACE, 1),
        i64_rotr(0xABCD_9876_0246_8ACE, 65),
    ];
    let wanted = [
        1,
        0xFFFF_FFFF_FFFF_FFFE,
        1,
        0x579B_30EC_048D_159D,
        0x55E6_CC3B_0123_4567,
    ];
    shows(&rt, moved, wanted);
}

#[test]
fn compares(rt: HostRuntime) {
    let signed = [
        i32_lt_s(I32_MIN, 0),
        i32_gt_s(I32_MIN, 0),
        i32_le_s(I32_MIN, 0),
        i32_ge_s(I32_MIN, 0),
        i64_lt_s(I64_MIN, 0),
        i64_gt_s(I64_MIN, 0),
        i64_le_s(I64_MIN, 0),
        i64_ge_s(I64_MIN, 0),
    ];
    shows(&rt, signed, [1, 0, 1, 0, 1, 0, 1, 0]);
    let unsigned = [
        i32_lt_u(I32_MIN, 0),
        i32_gt_u(I32_MIN, 0),
        i32_le_u(I32_MIN, 0),
        i32_ge_u(I32_MIN, 0),
        i64_lt_u(I64_MIN, 0),
        i64_gt_u(I64_MIN, 0),
        i64_le_u(I64_MIN, 0),
        i64_ge_u(I64_MIN, 0),
    ];
    shows(&rt, unsigned, [0, 1, 0, 1, 0, 1, 0, 1]);
    let same = [
        i32_eqz(0),
        i32_eqz(I32_MIN),
        i64_eqz(0),
        i64_eqz(0x1_0000_0000),
        i32_eq(1, 1),
        i32_ne(1, 1),
        i64_eq(1, 2),
        i64_ne(1, 2),
    ];
    shows(&rt, same, [1, 0, 1, 0, 1, 0, 0, 1]);
}

#[test]
fn dispatches(rt: HostRuntime) {
    let answers = [
        i32_unary(IntUnary::Extend8S, 0x80),
        i32_unary(IntUnary::Extend32S, I32_MIN),
        i32_compare(IntCompare::LtS, u32::MAX, 0),
        i64_compare(IntCompare::LtU, u64::MAX, 0),
    ];
    shows(&rt, answers, [0xFFFF_FF80, I32_MIN, 1, 0]);
    let answers = (
        i64_unary(IntUnary::Extend32S, 0x8000_0000),
        i32_binary(IntBinary::Sub, 1, 2),
        i64_binary(IntBinary::Sub, 1, 2),
    );
    shows(
        &rt,
        answers,
        (0xFFFF_FFFF_8000_0000, Ok(u32::MAX), Ok(u64::MAX)),
    );
}
