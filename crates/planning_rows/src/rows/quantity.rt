//! Times and sizes as texts, on both sides of the amounts at which their form changes.

use predictions::{push_bytes, push_error, push_moment, push_time};

#[test]
fn times_in_us_ms_and_s(rt: HostRuntime) {
    const CASES: [(u64, &str); 15] = [
        (0, "0 s"),
        (1, "1 us"),
        (999, "999 us"),
        (1_000, "1 ms"),
        (1_004, "1.004 ms"),
        (1_040, "1.04 ms"),
        (1_400, "1.4 ms"),
        (153_210, "153.21 ms"),
        (300_000, "300 ms"),
        (999_999, "999.999 ms"),
        (1_000_000, "1.000 s"),
        (1_000_999, "1.000 s"),
        (1_001_000, "1.001 s"),
        (6_889_342_718, "6889.342 s"),
        (u64::MAX, "18446744073709.551 s"),
    ];
    for &(micros, expected) in &CASES {
        let mut text = Vec::new(rt.alloc());
        push_time(&mut text, micros as u128).expect(&rt, "memory");
        assert!(rt; text.as_slice() == expected.as_bytes(), "{expected}");
    }
}

#[test]
fn errors_of_times_with_few_digits(rt: HostRuntime) {
    const CASES: [(u64, &str); 10] = [
        (0, "0 s"),
        (999, "999 us"),
        (1_099, "1 ms"),
        (1_100, "1.1 ms"),
        (9_999, "9.9 ms"),
        (10_000, "10 ms"),
        (54_082, "54 ms"),
        (999_999, "999 ms"),
        (1_000_000, "1.000 s"),
        (1_234_567, "1.234 s"),
    ];
    for &(micros, expected) in &CASES {
        let mut text = Vec::new(rt.alloc());
        push_error(&mut text, micros as u128).expect(&rt, "memory");
        assert!(rt; text.as_slice() == expected.as_bytes(), "{expected}");
    }
}

#[test]
fn moments_with_three_digits_or_six(rt: HostRuntime) {
    const CASES: [(u64, &str); 8] = [
        (0, "0.000 s"),
        (1, "0.000001 s"),
        (250, "0.000250 s"),
        (999, "0.000999 s"),
        (1_000, "0.001 s"),
        (999_999, "0.999999 s"),
        (12_000_000, "12.000 s"),
        (12_003_040, "12.003040 s"),
    ];
    for &(micros, expected) in &CASES {
        let mut text = Vec::new(rt.alloc());
        push_moment(&mut text, micros as u128).expect(&rt, "memory");
        assert!(rt; text.as_slice() == expected.as_bytes(), "{expected}");
    }
}

#[test]
fn sizes_in_bytes_and_their_units(rt: HostRuntime) {
    const CASES: [(u64, &str); 12] = [
        (0, "0 bytes"),
        (1, "1 byte"),
        (2, "2 bytes"),
        (1_023, "1023 bytes"),
        (1_024, "1.00 KiB"),
        (1_035, "1.01 KiB"),
        (1_048_575, "1023.99 KiB"),
        (1_048_576, "1.00 MiB"),
        (1_073_741_823, "1023.99 MiB"),
        (1_073_741_824, "1.00 GiB"),
        (1_610_612_736, "1.50 GiB"),
        (u64::MAX, "17179869183.99 GiB"),
    ];
    for &(bytes, expected) in &CASES {
        let mut text = Vec::new(rt.alloc());
        push_bytes(&mut text, bytes as u128).expect(&rt, "memory");
        assert!(rt; text.as_slice() == expected.as_bytes(), "{expected}");
    }
}
