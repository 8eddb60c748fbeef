// Sheets with what an independent program prints for them.
use crate::prints::printed;
use std::test::Fail;

#[derive(Clone, Copy, Debug, PartialEq, Eq)]
struct Case {
    about: &'static str,
    sheet: &'static [u8],
    printed: &'static str,
}

const CASES: [Case; 17] = [
    Case {
        about: "no byte at all",
        sheet: b"",
        printed: "record kind sector answer first\n0 broken - 7 -\n",
    },
    Case {
        about: "another version",
        sheet: b"\x02\x00\x03\x03\x00\x00",
        printed: "record kind sector answer first\n0 broken - 7 -\n",
    },
    Case {
        about: "no record",
        sheet: b"\x01",
        printed: "record kind sector answer first\n",
    },
    Case {
        about: "a body of no bytes",
        sheet: b"\x01\x00\x00",
        printed: "record kind sector answer first\n0 broken - 7 -\n",
    },
    Case {
        about: "kind 0",
        sheet: b"\x01\x00\x17\x01\x01\x01\x00@\x00\x01\x00\x01\x02\x03\x04\x05\x06\x07\x08\x09\x0A\x0B\x0C\x0D\x0E\x0F\x00\x03\x03\x00\x00\x00\x03\x00ab",
        printed: "record kind sector answer first\n0 setting - 0 -\n1 read 0 0 5D69032AD2A271BA\n2 broken - 7 -\n",
    },
    Case {
        about: "kind 4",
        sheet: b"\x01\x00\x03\x04ab",
        printed: "record kind sector answer first\n0 broken - 7 -\n",
    },
    Case {
        about: "a setting of 22 bytes",
        sheet: b"\x01\x00\x16\x01\x01\x01\x00@\x00\x01\x00\x01\x02\x03\x04\x05\x06\x07\x08\x09\x0A\x0B\x0C\x0D\x0E",
        printed: "record kind sector answer first\n0 broken - 7 -\n",
    },
    Case {
        about: "a setting of 24 bytes",
        sheet: b"\x01\x00\x18\x01\x01\x01\x00@\x00\x01\x00\x01\x02\x03\x04\x05\x06\x07\x08\x09\x0A\x0B\x0C\x0D\x0E\x0Fx",
        printed: "record kind sector answer first\n0 broken - 7 -\n",
    },
    Case {
        about: "a write of 2 bytes",
        sheet: b"\x01\x00\x02\x02\x00",
        printed: "record kind sector answer first\n0 broken - 7 -\n",
    },
    Case {
        about: "a read of 2 bytes",
        sheet: b"\x01\x00\x17\x01\x01\x01\x00@\x00\x01\x00\x01\x02\x03\x04\x05\x06\x07\x08\x09\x0A\x0B\x0C\x0D\x0E\x0F\x00\x02\x03\x00",
        printed: "record kind sector answer first\n0 setting - 0 -\n1 broken - 7 -\n",
    },
    Case {
        about: "a read of 4 bytes",
        sheet: b"\x01\x00\x17\x01\x01\x01\x00@\x00\x01\x00\x01\x02\x03\x04\x05\x06\x07\x08\x09\x0A\x0B\x0C\x0D\x0E\x0F\x00\x04\x03\x00\x00\x00",
        printed: "record kind sector answer first\n0 setting - 0 -\n1 broken - 7 -\n",
    },
    Case {
        about: "cut in a length",
        sheet: b"\x01\x00\x17\x01\x01\x01\x00@\x00\x01\x00\x01\x02\x03\x04\x05\x06\x07\x08\x09\x0A\x0B\x0C\x0D\x0E\x0F\x00",
        printed: "record kind sector answer first\n0 setting - 0 -\n1 broken - 7 -\n",
    },
    Case {
        about: "cut in a body",
        sheet: b"\x01\x00\x17\x01\x01\x01\x00@\x00\x01\x00\x01\x02\x03\x04\x05\x06\x07\x08\x09\x0A\x0B\x0C\x0D\x0E\x0F\x00\x03\x03\x00",
        printed: "record kind sector answer first\n0 setting - 0 -\n1 broken - 7 -\n",
    },
    Case {
        about: "the example",
        sheet: b"\x01\x00\x17\x01\x01\x02\x00@\x00\x08\x00\x01\x02\x03\x04\x05\x06\x07\x08\x09\x0A\x0B\x0C\x0D\x0E\x0F\x00C\x02\x00\x01AAAAAAAAAAAAAAAAAAAAAAAAAAAAAAAAAAAAAAAAAAAAAAAAAAAAAAAAAAAAAAAA\x00\x03\x03\x00\x01\x00\x03\x03\x00\x08",
        printed: "record kind sector answer first\n0 setting - 0 -\n1 write 1 0 -\n2 read 1 0 4141414141414141\n3 read 8 4 -\n",
    },
    Case {
        about: "texts of other lengths",
        sheet: b"\x01\x00\x17\x01\x02\x02\x00@\x00\x02\x00\x01\x02\x03\x04\x05\x06\x07\x08\x09\x0A\x0B\x0C\x0D\x0E\x0F\x00\x03\x02\x00\x00\x00B\x02\x00\x00aaaaaaaaaaaaaaaaaaaaaaaaaaaaaaaaaaaaaaaaaaaaaaaaaaaaaaaaaaaaaaa\x00D\x02\x00\x00bbbbbbbbbbbbbbbbbbbbbbbbbbbbbbbbbbbbbbbbbbbbbbbbbbbbbbbbbbbbbbbbb\x00C\x02\x00\x00cccccccccccccccccccccccccccccccccccccccccccccccccccccccccccccccc\x00\x03\x02\x00\x02\x00C\x02\x00\x02dddddddddddddddddddddddddddddddddddddddddddddddddddddddddddddddd\x00\x03\x03\x00\x00\x00\x03\x03\x00\x01",
        printed: "record kind sector answer first\n0 setting - 0 -\n1 write 0 2 -\n2 write 0 2 -\n3 write 0 2 -\n4 write 0 0 -\n5 write 2 2 -\n6 write 2 4 -\n7 read 0 0 6363636363636363\n8 read 1 0 65F71D7F2897DD69\n",
    },
    Case {
        about: "records out of turn",
        sheet: b"\x01\x00\x03\x03\x00\x00\x00\x04\x02\x00\x00x\x00\x17\x01\x02\x01\x00P\x00\x03\x00\x01\x02\x03\x04\x05\x06\x07\x08\x09\x0A\x0B\x0C\x0D\x0E\x0F\x00\x17\x01\x02\x01\x00P\x00\x03\x00\x01\x02\x03\x04\x05\x06\x07\x08\x09\x0A\x0B\x0C\x0D\x0E\x0F\x00\x03\x03\x00\x02\x00S\x02\x00\x02ZZZZZZZZZZZZZZZZZZZZZZZZZZZZZZZZZZZZZZZZZZZZZZZZZZZZZZZZZZZZZZZZZZZZZZZZZZZZZZZZ\x00\x03\x03\x00\x02\x00\x03\x03\x00\x03",
        printed: "record kind sector answer first\n0 read 0 8 -\n1 write 0 8 -\n2 setting - 0 -\n3 setting - 8 -\n4 read 2 0 4816745BE5A5BFF7\n5 write 2 0 -\n6 read 2 0 5A5A5A5A5A5A5A5A\n7 read 3 4 -\n",
    },
    Case {
        about: "a setting after refused ones",
        sheet: b"\x01\x00\x17\x01\x03\x01\x00@\x00\x01\x00\x01\x02\x03\x04\x05\x06\x07\x08\x09\x0A\x0B\x0C\x0D\x0E\x0F\x00\x17\x01\x01\x03\x00@\x00\x01\x00\x01\x02\x03\x04\x05\x06\x07\x08\x09\x0A\x0B\x0C\x0D\x0E\x0F\x00\x17\x01\x01\x01\x00<\x00\x01\x00\x01\x02\x03\x04\x05\x06\x07\x08\x09\x0A\x0B\x0C\x0D\x0E\x0F\x00\x17\x01\x01\x01\x00H\x00\x01\x00\x01\x02\x03\x04\x05\x06\x07\x08\x09\x0A\x0B\x0C\x0D\x0E\x0F\x00\x17\x01\x01\x01\x00@\x00\x00\x00\x01\x02\x03\x04\x05\x06\x07\x08\x09\x0A\x0B\x0C\x0D\x0E\x0F\x00\x17\x01\x01\x01\x10\x00\x00\x09\x00\x01\x02\x03\x04\x05\x06\x07\x08\x09\x0A\x0B\x0C\x0D\x0E\x0F\x00\x17\x01\x01\x01\x000\x00\x01\x00\x01\x02\x03\x04\x05\x06\x07\x08\x09\x0A\x0B\x0C\x0D\x0E\x0F\x00\x17\x01\x01\x01\x10\x10\x00\x01\x00\x01\x02\x03\x04\x05\x06\x07\x08\x09\x0A\x0B\x0C\x0D\x0E\x0F\x00\x17\x01\x01\x01\x10\x00\x00\x08\x00\x01\x02\x03\x04\x05\x06\x07\x08\x09\x0A\x0B\x0C\x0D\x0E\x0F\x00\x03\x03\x00\x07\x00\x03\x03\x00\x08",
        printed: "record kind sector answer first\n0 setting - 6 -\n1 setting - 6 -\n2 setting - 6 -\n3 setting - 6 -\n4 setting - 6 -\n5 setting - 6 -\n6 setting - 6 -\n7 setting - 6 -\n8 setting - 0 -\n9 read 7 0 62FBE92F6B64D189\n10 read 8 4 -\n",
    },
];

#[test]
fn sheets_of_the_reference(rt: HostRuntime) -> Result<(), Fail> {
    for case in &CASES {
        let text = printed(rt.alloc(), case.sheet)?;
        assert_eq!(rt; text.as_str(), case.printed, "{}", case.about);
    }
    Ok(())
}
