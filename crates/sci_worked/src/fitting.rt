use sci_base::bits::{bits_from_to, clear_bit, from_pattern, pattern, set_bit, turned_left};
use sci_base::{Mode, Ty, fit, mul_fit};

#[test]
fn fits_sums(rt: HostRuntime) {
    assert_eq!(rt; fit(Ty::I8, Mode::Wrap, 200), Some(-56));
    assert_eq!(rt; fit(Ty::I8, Mode::Saturate, 200), Some(127));
    assert_eq!(rt; fit(Ty::I8, Mode::Saturate, -129), Some(-128));
    assert_eq!(rt; fit(Ty::I8, Mode::Stop, 200), None);
    assert_eq!(rt; fit(Ty::U16, Mode::Wrap, -1), Some(65535));
    assert_eq!(rt; fit(Ty::I32, Mode::Wrap, i64::MIN), Some(0));
    assert_eq!(rt; fit(Ty::I32, Mode::Wrap, i64::MAX), Some(-1));
}

#[test]
fn fits_products(rt: HostRuntime) {
    assert_eq!(rt;
        mul_fit(Ty::U32, Mode::Wrap, 4294967295, 4294967295),
        Some(1)
    );
    assert_eq!(rt;
        mul_fit(Ty::U32, Mode::Saturate, 4294967295, 4294967295),
        Some(4294967295)
    );
    assert_eq!(rt; mul_fit(Ty::I32, Mode::Stop, -2147483648, -1), None);
    assert_eq!(rt; mul_fit(Ty::I8, Mode::Wrap, 100, 3), Some(44));
}

#[test]
fn turns_bits(rt: HostRuntime) {
    assert_eq!(rt; pattern(Ty::I8, -1), 255);
    assert_eq!(rt; from_pattern(Ty::I16, 40000), Some(-25536));
    assert_eq!(rt; set_bit(5, 1), 7);
    assert_eq!(rt; clear_bit(7, 1), 5);
    assert_eq!(rt; bits_from_to(0b1011_0100, 2, 5), 13);
    assert_eq!(rt; turned_left(Ty::U8, 0b1001_0110, 3), 0b1011_0100);
}
