//! Values of the full language, which are printed, or written into a room at a place.
use crate::rows::Kind;
use std::test::Fail;
use test_rows::each_line;

// Format strings with a value, what becomes of it in a room, and its text.
const TIMES: &str = "\
full {=u64:iso8601s}, 0 = placed 1970-01-01T00:00:00Z
full {=u64:iso8601s}, 951782400 = placed 2000-02-29T00:00:00Z
full {=u32:iso8601s}, 1796040000 = placed 2026-11-30T12:00:00Z
full {=u32:iso8601s}, 4294967295 = placed 2106-02-07T06:28:15Z
full {=u64:iso8601ms}, 1796040000250 = placed 2026-11-30T12:00:00.250Z
full {=u8:iso8601ms}, 7 = placed 1970-01-01T00:00:00.007Z
full {=u64:iso8601s}, 253402300799 = placed 9999-12-31T23:59:59Z
full {=u64:iso8601s}, 253402300800 = placed 253402300800
full {=u64:iso8601ms}, 253402300799999 = placed 9999-12-31T23:59:59.999Z
full {=u64:iso8601ms}, 253402300800000 = placed 253402300800000
full {=u128:iso8601s}, 340282366920938463463374607431768211455 = placed 340282366920938463463374607431768211455
full {=u32:ts}, 0 = placed 00:00:00
full {=u32:ts}, 43200 = placed 12:00:00
full {=u32:ts}, 86399 = placed 23:59:59
full {=u32:ts}, 86400 = placed 1:00:00:00
full {=u32:ts}, 1796040000 = placed 20787:12:00:00
full {=u32:tms}, 61250 = placed 00:01:01.250
full {=u64:tms}, 86400000 = placed 1:00:00:00.000
full {=u64:tus}, 3661000007 = placed 01:01:01.000007
full {=u64:tus}, 18446744073709551615 = placed 213503982:08:01:49.551615
full {=u128:tus}, 18446744073709551616 = placed 213503982:08:01:49.551616
full {=i64:iso8601s}, -5 = placed -5
full {=i64:iso8601ms}, 1000 = placed 1000
full {=i32:ts}, -1 = placed -1
full {=i128:tus}, 7 = placed 7";

const PADDED: &str = r#"full {=u8:08}, 42 = placed 00000042
full {=u8:01}, 255 = placed 255
full {=u8:03}, 255 = placed 255
full {=u64:020}, 18446744073709551615 = placed 18446744073709551615
full {=u64:021}, 18446744073709551615 = placed 018446744073709551615
full {=u128:040}, 340282366920938463463374607431768211455 = placed 0340282366920938463463374607431768211455
full {=i8:05}, -5 = placed -0005
full {=i8:05}, 5 = placed 00005
full {=i8:01}, -128 = placed -128
full {=i8:04}, -128 = placed -128
full {=i16:06}, -32768 = placed -32768
full {=i64:021}, -9223372036854775808 = placed -09223372036854775808
full {=isize:02}, -1 = placed -1
full {=i128:042}, -170141183460469231731687303715884105728 = placed -00170141183460469231731687303715884105728
full {=i128:03}, 7 = placed 007
full {=bool:06}, true = placed true
full {=char:04}, 'a' = placed a
full {=char:ts}, '\'' = placed '
full {=str:04}, "" = placed
full {=str:iso8601s}, "a\"b" = placed a"b
full {=str:ts}, "x" = placed x
full {=[u8]:04}, #0aff = placed [10, 255]
full {=[u8]:ts}, #01 = placed [1]
full {=[u8; 2]:iso8601ms}, #0000 = placed [0, 0]"#;

const FLOATS: &str = "\
full {=f32}, 1 = placed 1.0
full {=f64}, -0 = placed -0.0
full {=f64}, 0.001 = placed 0.001
full {=f64}, 1e20 = placed 1e20
full {=f32}, 3.4028235e38 = placed 3.4028235e38
full {=f32}, 0.1 = placed 0.1
full {=f64}, 0.1 = placed 0.1
full {=f64}, 0.30000000000000004 = placed 0.30000000000000004
full {=f32}, 16777216 = placed 16777216.0
full {=f64}, -2.2250738585072014e-308 = placed -2.2250738585072014e-308
full {=f64}, 5e-324 = placed 5e-324
full {=f32}, 1e39 = placed inf
full {=f32}, 0x3dcccccd = placed 0.1
full {=f64}, 0x444b1ae4d6e2ef50 = placed 1e21
full {=f32}, 0xffc00001 = placed NaN
full {=f64}, NaN = placed NaN
full {=f64:?}, -inf = placed -inf
full {=f64:#018x}, 1.5 = placed 1.5
full {=f32:a}, 1.5 = placed 1.5
full {=f32:us}, 1.5 = placed 1.5
full {=f32:ms}, 1.5 = placed 1.5
full {=f64:iso8601s}, 1.5 = placed 1.5
full {=f64:tus}, 1.5 = placed 1.5
full {=f64:08}, -1.5 = placed -1.5";

// Format strings with their arguments, what becomes of the line in a room, and the line.
const SHOWN: &str =
    r#"full {0=0..4:04} {0=8..24:ts} {0=0..8:iso8601ms}, 0x1518a5 = placed INFO  0005 01:30:00 1970-01-01T00:00:00.165Z
full {=__internal_Debug} {=__internal_Display}, "Ok(3)" "x y" = placed INFO  Ok(3) x y
full {=__internal_Debug:?} {=__internal_Display:?} {=str:?}, "a\"b" "a\\b" "c" = placed INFO  a"b a\b "c"
full {=__internal_Debug:#04x}{=__internal_Display:03}, "" "x" = placed INFO  x
full <{=__internal_FormatSequence}>, <> = placed INFO  <>
full {=__internal_FormatSequence}, <z() k(7) k(8)> = placed INFO  zk7k8
full {=__internal_FormatSequence:x}, <k(255) n(k(16))> = placed INFO  kff<k10>
full {=__internal_FormatSequence:02}, <k(1) opt:1(k(2)) two(k(3) z())> = placed INFO  k01Some(k02)zk03
full {=__internal_FormatSequence:?}, <c('a') c('\'')> = placed INFO  'a''\''
full {=[?]:ts} {=?:04}, k[(59) (255)] k(7) = placed INFO  [k00:00:59, k00:04:15] k0007
full {=?:04}, seq(<k(1) k(2)>) = placed INFO  k0001k0002
full {=?}, seq(<seq(<>) seq(<k(1)>)>) = placed INFO  k1
full {=f32} {=f64:?} {=?:x}, 1.5 -inf fl(0.25) = placed INFO  1.5 -inf 0.25
full {0=f32}{0=f32:x}, 2 = placed INFO  2.02.0"#;

#[test]
fn numbers_print_as_dates_and_on_a_clock_and_no_negative_ones(rt: HostRuntime) -> Result<(), Fail> {
    each_line(rt.alloc(), TIMES, 25, &Kind::Placed)
}

#[test]
fn zeros_fill_up_to_a_width_that_counts_the_sign(rt: HostRuntime) -> Result<(), Fail> {
    each_line(rt.alloc(), PADDED, 24, &Kind::Placed)
}

#[test]
fn floats_print_as_the_shortest_decimals_under_each_hint(rt: HostRuntime) -> Result<(), Fail> {
    each_line(rt.alloc(), FLOATS, 24, &Kind::Placed)
}

#[test]
fn sequences_hand_the_hint_on_and_texts_of_a_device_stand_as_they_are(
    rt: HostRuntime,
) -> Result<(), Fail> {
    each_line(rt.alloc(), SHOWN, 14, &Kind::FlatShown)
}
