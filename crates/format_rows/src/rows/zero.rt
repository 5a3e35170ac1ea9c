//! Worked examples.

use zero_pages::is_zero;

#[test]
fn no_bytes(rt: HostRuntime) {
    assert!(rt; is_zero(b""));
}

#[test]
fn one_byte_counts_wherever_it_stands(rt: HostRuntime) {
    let mut bytes = [0u8; 200];
    for length in 0..201usize {
        let (part, _) = bytes.split_at_mut(length);
        assert!(rt; is_zero(part));
        for place in 0..length {
            part[place] = 0x80;
            assert!(rt; !is_zero(part));
            part[place] = 0;
        }
    }
}

#[test]
fn each_bit_counts(rt: HostRuntime) {
    assert!(rt; !is_zero(&[0x80, 0, 0]));
    assert!(rt; !is_zero(&[0, 0, 0x80]));
    assert!(rt; !is_zero(&[0, 1, 0]));
}
