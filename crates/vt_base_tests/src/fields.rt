//! Fields of each width, by the bytes that they leave.

use std::test::Fail;
use vt_base::fields::{
    filled, put, put_u8, put_u16, put_u32, put_u48, put_u64, u16_at, u32_at, u48_at, u64_at,
};
use vt_rows::Rows;

#[test]
fn fields_stand_high_byte_first() -> Result<(), Fail> {
    let mut buf = [0xee; 26];
    let at = put(&mut buf, 1, b"VCLP");
    let at = put_u8(&mut buf, at, 0x0d);
    let at = put_u16(&mut buf, at, 0x0102);
    let at = put_u32(&mut buf, at, 0x0304_0506);
    let at = put_u64(&mut buf, at, 0x0708_090a_0b0c_0d0e);
    let at = put_u48(&mut buf, at, 0x0f10_1112_1314);
    let mut rows = Rows::new();
    rows.is("the place behind the fields", at == 26);
    rows.is(
        "the bytes of the fields",
        buf == *b"\xeeVCLP\x0d\x01\x02\x03\x04\x05\x06\x07\x08\
            \x09\x0a\x0b\x0c\x0d\x0e\x0f\x10\x11\x12\x13\x14",
    );
    rows.passes()
}

#[test]
fn a_field_leaves_what_is_behind_it() -> Result<(), Fail> {
    let mut buf = [0xee; 8];
    let at = put_u16(&mut buf, 2, 0xfffe);
    let mut rows = Rows::new();
    rows.is("the place behind the field", at == 4);
    rows.is(
        "the bytes around the field",
        buf == [0xee, 0xee, 0xff, 0xfe, 0xee, 0xee, 0xee, 0xee],
    );
    rows.passes()
}

#[test]
fn fields_are_filled_up_with_zeros() -> Result<(), Fail> {
    let mut rows = Rows::new();
    rows.is(
        "a field of eight with a byte to fill",
        filled::<8>(b"arenas0") == *b"arenas0\0",
    );
    rows.is("a field that is full", filled::<4>(b"VPRT") == *b"VPRT");
    rows.is("a field of no bytes", filled::<3>(b"") == [0; 3]);
    rows.passes()
}

#[test]
fn fields_are_read_at_their_places() -> Result<(), Fail> {
    let bytes = b"\x00\x01\x02\x03\x04\x05\x06\x07\x08\x09";
    let mut rows = Rows::new();
    rows.is("two bytes", u16_at(bytes, 1) == 0x0102);
    rows.is("four bytes", u32_at(bytes, 2) == 0x0203_0405);
    rows.is("six bytes", u48_at(bytes, 3) == 0x0304_0506_0708);
    rows.is("eight bytes", u64_at(bytes, 2) == 0x0203_0405_0607_0809);
    rows.passes()
}
