#![tactic(auto)]

mod sectors;

#[cfg(test)]
fn is_read(line: &[u8]) -> bool {
    verdicts::verdict::judge(line) != Some(verdicts::verdict::Verdict::NotUnderstood)
}

// What lines are understood, and what is said of them.
#[cfg(test)]
mod tests {
    use crate::is_read;
    use answers::kinds::Kind;
    use verdicts::verdict::{Verdict, judge};

    const PRODUCT: &[u8] =
        b"product 00000000000000000000000000000003 00000000000000000000000000000003 00000000000000000000000000000005";

    #[test]
    fn agrees_or_differs(rt: HostRuntime) {
        assert_eq!(rt; judge(PRODUCT), Some(Verdict::Agrees(Kind::Product)));
        let wrong =
            b"product 00000000000000000000000000000003 00000000000000000000000000000003 00000000000000000000000000000009";
        assert_eq!(rt; judge(wrong), Some(Verdict::Differs(Kind::Product)));
    }

    #[test]
    fn passes_over(rt: HostRuntime) {
        assert_eq!(rt; judge(b""), None);
        assert_eq!(rt; judge(b"# product"), None);
    }

    #[test]
    fn either_case(rt: HostRuntime) {
        let small =
            b"aes 000102030405060708090a0b0c0d0e0f 00112233445566778899aabbccddeeff 69c4e0d86a7b0430d8cdb78070b4c55a";
        let mixed =
            b"aes 000102030405060708090A0b0C0d0E0f 00112233445566778899aABBcCDDeEFF 69C4e0D86a7B0430d8CDB78070b4C55A";
        assert_eq!(rt; judge(small), Some(Verdict::Agrees(Kind::Aes)));
        assert_eq!(rt; judge(mixed), Some(Verdict::Agrees(Kind::Aes)));
        assert!(rt;
            !is_read(
                b"AES 000102030405060708090a0b0c0d0e0f 00112233445566778899aabbccddeeff 69c4e0d86a7b0430d8cdb78070b4c55a",
            )
        );
    }

    #[test]
    fn empty_list(rt: HostRuntime) {
        let zero = b"brw 000102030405060708090a0b0c0d0e0f - 00000000000000000000000000000000";
        assert_eq!(rt; judge(zero), Some(Verdict::Agrees(Kind::Brw)));
        let one = b"horner 000102030405060708090a0b0c0d0e0f - 00000000000000000000000000000001";
        assert_eq!(rt; judge(one), Some(Verdict::Differs(Kind::Horner)));
        assert!(rt;
            !is_read(b"horner 000102030405060708090a0b0c0d0e0f  00000000000000000000000000000000"),
            "no list"
        );
        assert!(rt;
            !is_read(b"horner - - 00000000000000000000000000000000"),
            "a dash is no block"
        );
    }

    #[test]
    fn wrong_words(rt: HostRuntime) {
        assert!(rt; !is_read(b"product"), "no fields");
        assert!(rt;
            !is_read(
                b"product  00000000000000000000000000000003 00000000000000000000000000000003 00000000000000000000000000000005",
            ),
            "two spaces"
        );
        assert!(rt;
            !is_read(
                b" product 00000000000000000000000000000003 00000000000000000000000000000003 00000000000000000000000000000005",
            ),
            "a space before"
        );
        assert!(rt;
            !is_read(
                b"product 00000000000000000000000000000003 00000000000000000000000000000003 00000000000000000000000000000005 ",
            ),
            "a space after"
        );
        assert!(rt;
            !is_read(
                b"product 00000000000000000000000000000003 00000000000000000000000000000003 00000000000000000000000000000005\r",
            ),
            "CR"
        );
        assert!(rt;
            !is_read(b"product 00000000000000000000000000000003 00000000000000000000000000000003"),
            "a word missing"
        );
        assert!(rt;
            !is_read(
                b"product 00000000000000000000000000000003 00000000000000000000000000000003 00000000000000000000000000000005 00",
            ),
            "a word too many"
        );
        assert!(rt;
            !is_read(
                b"quotient 00000000000000000000000000000003 00000000000000000000000000000003 00000000000000000000000000000001",
            ),
            "unknown kind"
        );
    }

    #[test]
    fn wrong_digits(rt: HostRuntime) {
        assert!(rt;
            !is_read(
                b"product 0000000000000000000000000000003 00000000000000000000000000000003 00000000000000000000000000000005",
            ),
            "31 digits"
        );
        assert!(rt;
            !is_read(
                b"product 00000000000000000000000000000003 0000000000000000000000000000000g 00000000000000000000000000000005",
            ),
            "no digit"
        );
        assert!(rt;
            !is_read(
                b"brw 00000000000000000000000000000003 000000000000000000000000000000030 00000000000000000000000000000005",
            ),
            "33 digits"
        );
        assert!(rt;
            !is_read(
                b"brw 00000000000000000000000000000003 0000000000000000000000000000000x 00000000000000000000000000000005",
            ),
            "no digit in a list"
        );
    }
}
