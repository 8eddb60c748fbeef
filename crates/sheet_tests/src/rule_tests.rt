// Sheets whose lines follow from the rules. What a read shows of a sector that was never written is taken from
// tools/reference.py.
use crate::draft::{Draft, KEY, Text, put, sheet_of};
use crate::prints::prints;
use sheets::records::Values;
use std::alloc::{AllocError, Global};
use std::process::Abort;
use std::test::Fail;

// 61,440 bytes: 26 of version and setting, fourteen writes of 4,101, and one of 4,000 with a text that is no sector.
fn longest(heap: Global) -> Result<Vec<u8>, AllocError> {
    let setting = Draft::Setting(Values {
        cipher: 1,
        hash: 2,
        length: 4096,
        count: 8,
        key: KEY,
    });
    let mut sheet = sheet_of(heap, &[setting])?;
    for i in 0..14u8 {
        put(
            &mut sheet,
            Draft::Write {
                sector: u16::from(i % 8),
                text: Text {
                    first: i,
                    step: 7,
                    length: 4096,
                },
            },
        )?;
    }
    put(
        &mut sheet,
        Draft::Write {
            sector: 0,
            text: Text {
                first: 0x78,
                step: 0,
                length: 3995,
            },
        },
    )?;
    Ok(sheet)
}

#[test]
fn as_long_as_a_sheet_may_be(rt: HostRuntime) -> Result<(), Fail> {
    let sheet = longest(rt.alloc())?;
    assert_eq!(rt; sheet.len(), 61440);
    prints(
        &rt,
        &sheet,
        "record kind sector answer first\n0 setting - 0 -\n1 write 0 0 -\n2 write 1 0 -\n3 write 2 0 -\n4 write 3 0 -\n5 write 4 0 -\n6 write 5 0 -\n7 write 6 0 -\n8 write 7 0 -\n9 write 0 0 -\n10 write 1 0 -\n11 write 2 0 -\n12 write 3 0 -\n13 write 4 0 -\n14 write 5 0 -\n15 write 0 2 -\n",
    )
}

// One byte more, and no record is read, though the first of them are sound.
#[test]
fn longer_than_a_sheet_may_be(rt: HostRuntime) -> Result<(), Fail> {
    let mut sheet = longest(rt.alloc())?;
    sheet.push(0)?;
    assert_eq!(rt; sheet.len(), 61441);
    prints(
        &rt,
        &sheet,
        "record kind sector answer first\n0 broken - 7 -\n",
    )
}

// 64 times 512 is 32,768, the most that a setting may ask for; one sector more is refused, and so is a product that
// needs more than 16 bits. A setting that follows a refused one is taken, and one that follows an accepted one is out of
// turn, whatever its figures. Sector 256 has the bytes 01 00, which are sector 1 to who reads them the wrong way.
const LARGEST_STORES: [Draft; 10] = [
    Draft::Setting(Values {
        cipher: 1,
        hash: 1,
        length: 64,
        count: 513,
        key: KEY,
    }),
    Draft::Setting(Values {
        cipher: 2,
        hash: 2,
        length: 4096,
        count: 65535,
        key: KEY,
    }),
    Draft::Setting(Values {
        cipher: 1,
        hash: 1,
        length: 64,
        count: 512,
        key: KEY,
    }),
    Draft::Setting(Values {
        cipher: 0,
        hash: 0,
        length: 0,
        count: 0,
        key: KEY,
    }),
    Draft::Write {
        sector: 256,
        text: Text {
            first: 0xA9,
            step: 0x1D,
            length: 64,
        },
    },
    Draft::Read { sector: 1 },
    Draft::Read { sector: 256 },
    Draft::Read { sector: 511 },
    Draft::Read { sector: 512 },
    Draft::Read { sector: 65535 },
];

// A write of no bytes and one of a byte too many are records like others, and refused by the store; the sector keeps what
// it held.
const OTHER_LENGTHS: [Draft; 6] = [
    Draft::Setting(Values {
        cipher: 2,
        hash: 1,
        length: 80,
        count: 2,
        key: KEY,
    }),
    Draft::Write {
        sector: 1,
        text: Text {
            first: 0x30,
            step: 1,
            length: 80,
        },
    },
    Draft::Write {
        sector: 1,
        text: Text {
            first: 0x40,
            step: 1,
            length: 0,
        },
    },
    Draft::Write {
        sector: 1,
        text: Text {
            first: 0x50,
            step: 1,
            length: 81,
        },
    },
    Draft::Write {
        sector: 2,
        text: Text {
            first: 0x60,
            step: 1,
            length: 80,
        },
    },
    Draft::Read { sector: 1 },
];

// What follows a broken record is not run.
const BROKEN_BETWEEN: [Draft; 4] = [
    Draft::Read { sector: 5 },
    Draft::Kindless { sector: 5 },
    Draft::Setting(Values {
        cipher: 1,
        hash: 1,
        length: 64,
        count: 1,
        key: KEY,
    }),
    Draft::Read { sector: 0 },
];

fn run_prints(
    rt: &(impl Abort + AllocGlobal),
    records: &[Draft],
    expected: &str,
) -> Result<(), Fail> {
    prints(rt, &sheet_of(rt.alloc(), records)?, expected)
}

#[test]
fn largest_stores(rt: HostRuntime) -> Result<(), Fail> {
    run_prints(
        &rt,
        &LARGEST_STORES,
        "record kind sector answer first\n0 setting - 6 -\n1 setting - 6 -\n2 setting - 0 -\n3 setting - 8 -\n4 write 256 0 -\n5 read 1 0 0E361577E8127725\n6 read 256 0 A9C6E3001D3A5774\n7 read 511 0 02EFB8BEECD67197\n8 read 512 4 -\n9 read 65535 4 -\n",
    )
}

#[test]
fn texts_of_other_lengths(rt: HostRuntime) -> Result<(), Fail> {
    run_prints(
        &rt,
        &OTHER_LENGTHS,
        "record kind sector answer first\n0 setting - 0 -\n1 write 1 0 -\n2 write 1 2 -\n3 write 1 2 -\n4 write 2 4 -\n5 read 1 0 3031323334353637\n",
    )
}

#[test]
fn nothing_after_a_broken_record(rt: HostRuntime) -> Result<(), Fail> {
    run_prints(
        &rt,
        &BROKEN_BETWEEN,
        "record kind sector answer first\n0 read 5 8 -\n1 broken - 7 -\n",
    )
}

// The largest length that two bytes can name, with one byte of a body.
#[test]
fn length_past_the_end(rt: HostRuntime) -> Result<(), Fail> {
    prints(
        &rt,
        b"\x01\xFF\xFF\x02",
        "record kind sector answer first\n0 broken - 7 -\n",
    )
}
