// What lines of sectors are understood, and what is said of them.
#[cfg(test)]
mod tests {
    use crate::is_read;
    use answers::kinds::Kind;
    use verdicts::verdict::{Verdict, judge};

    const SECTOR: &[u8] =
        b"aes brw cba1fadbded5249d9db5b4ac99d30ba7 0 cc689a280a354fe01cf11aed00c81dbab5c50dcee83c203ba4140a9bc97dc21131b0246fcf12a440976c832219a94daabc07082208e9db3d904721490177aa63 59d307f542c8b2bdabe59d1ec1c4ed59bd1801664868f2c99c03a9c748e50a890c2256c215b22e27e2ca9130053e3072c3d124213df659dad4baf928dd58759f";

    fn agrees(line: &[u8]) -> bool {
        judge(line) == Some(Verdict::Agrees(Kind::Sector))
    }

    fn differs(line: &[u8]) -> bool {
        judge(line) == Some(Verdict::Differs(Kind::Sector))
    }

    #[test]
    fn agree(rt: HostRuntime) {
        assert!(rt; agrees(SECTOR), "as it was made");
        assert!(rt;
            agrees(
                b"aes brw CBA1FADBDED5249D9DB5B4AC99D30BA7 0 CC689A280A354FE01CF11AED00C81DBAB5C50DCEE83C203BA4140A9BC97DC21131B0246FCF12A440976C832219A94DAABC07082208E9DB3D904721490177AA63 59D307F542C8B2BDABE59D1EC1C4ED59BD1801664868F2C99C03A9C748E50A890C2256C215B22E27E2CA9130053E3072C3D124213DF659DAD4BAF928DD58759F",
            ),
            "capital digits"
        );
        assert!(rt;
            agrees(
                b"speck horner 91a643992939a86613aaa1558471856e 1 0af69943884cb03b61d1a4d0eb7738604d9c554395e2f8be47dede6461b725df290cc149073399c9dd5970b2b3402a51f946c6d2b68a9b2bf9bee48c4b582f86 617a511f7bbf0159d319c1b37042c70e0df5367b6bb81d2c61097c7dd8c06d14387c0ef9053a59967372e46cdab6d0c47a614833343d34c34711955da28dca2c",
            ),
            "another cipher, hash and number"
        );
    }

    #[test]
    fn differ(rt: HostRuntime) {
        assert!(rt;
            differs(
                b"aes brw cba1fadbded5249d9db5b4ac99d30ba7 1 cc689a280a354fe01cf11aed00c81dbab5c50dcee83c203ba4140a9bc97dc21131b0246fcf12a440976c832219a94daabc07082208e9db3d904721490177aa63 59d307f542c8b2bdabe59d1ec1c4ed59bd1801664868f2c99c03a9c748e50a890c2256c215b22e27e2ca9130053e3072c3d124213df659dad4baf928dd58759f",
            ),
            "another number"
        );
        assert!(rt;
            differs(
                b"aes brw cba1fadbded5249d9db5b4ac99d30ba7 18446744073709551615 cc689a280a354fe01cf11aed00c81dbab5c50dcee83c203ba4140a9bc97dc21131b0246fcf12a440976c832219a94daabc07082208e9db3d904721490177aa63 59d307f542c8b2bdabe59d1ec1c4ed59bd1801664868f2c99c03a9c748e50a890c2256c215b22e27e2ca9130053e3072c3d124213df659dad4baf928dd58759f",
            ),
            "the largest number"
        );
        assert!(rt;
            differs(
                b"aes brw cba1fadbded5249d9db5b4ac99d30ba0 0 cc689a280a354fe01cf11aed00c81dbab5c50dcee83c203ba4140a9bc97dc21131b0246fcf12a440976c832219a94daabc07082208e9db3d904721490177aa63 59d307f542c8b2bdabe59d1ec1c4ed59bd1801664868f2c99c03a9c748e50a890c2256c215b22e27e2ca9130053e3072c3d124213df659dad4baf928dd58759f",
            ),
            "another key"
        );
        assert!(rt;
            differs(
                b"aes brw cba1fadbded5249d9db5b4ac99d30ba7 0 cc689a280a354fe01cf11aed00c81dbab5c50dcee83c203ba4140a9bc97dc21131b0246fcf12a440976c832219a94daabc07082208e9db3d904721490177aa60 59d307f542c8b2bdabe59d1ec1c4ed59bd1801664868f2c99c03a9c748e50a890c2256c215b22e27e2ca9130053e3072c3d124213df659dad4baf928dd58759f",
            ),
            "another plain text"
        );
        assert!(rt;
            differs(
                b"aes brw cba1fadbded5249d9db5b4ac99d30ba7 0 cc689a280a354fe01cf11aed00c81dbab5c50dcee83c203ba4140a9bc97dc21131b0246fcf12a440976c832219a94daabc07082208e9db3d904721490177aa63 59d307f542c8b2bdabe59d1ec1c4ed59bd1801664868f2c99c03a9c748e50a891c2256c215b22e27e2ca9130053e3072c3d124213df659dad4baf928dd58759f",
            ),
            "another enciphered text"
        );
        assert!(rt;
            differs(
                b"aes horner cba1fadbded5249d9db5b4ac99d30ba7 0 cc689a280a354fe01cf11aed00c81dbab5c50dcee83c203ba4140a9bc97dc21131b0246fcf12a440976c832219a94daabc07082208e9db3d904721490177aa63 59d307f542c8b2bdabe59d1ec1c4ed59bd1801664868f2c99c03a9c748e50a890c2256c215b22e27e2ca9130053e3072c3d124213df659dad4baf928dd58759f",
            ),
            "another hash"
        );
        assert!(rt;
            differs(
                b"speck brw cba1fadbded5249d9db5b4ac99d30ba7 0 cc689a280a354fe01cf11aed00c81dbab5c50dcee83c203ba4140a9bc97dc21131b0246fcf12a440976c832219a94daabc07082208e9db3d904721490177aa63 59d307f542c8b2bdabe59d1ec1c4ed59bd1801664868f2c99c03a9c748e50a890c2256c215b22e27e2ca9130053e3072c3d124213df659dad4baf928dd58759f",
            ),
            "another cipher"
        );
    }

    #[test]
    fn numbers_not_understood(rt: HostRuntime) {
        assert!(rt;
            !is_read(
                b"aes brw cba1fadbded5249d9db5b4ac99d30ba7 18446744073709551616 cc689a280a354fe01cf11aed00c81dbab5c50dcee83c203ba4140a9bc97dc21131b0246fcf12a440976c832219a94daabc07082208e9db3d904721490177aa63 59d307f542c8b2bdabe59d1ec1c4ed59bd1801664868f2c99c03a9c748e50a890c2256c215b22e27e2ca9130053e3072c3d124213df659dad4baf928dd58759f",
            ),
            "2^64"
        );
        assert!(rt;
            !is_read(
                b"aes brw cba1fadbded5249d9db5b4ac99d30ba7  cc689a280a354fe01cf11aed00c81dbab5c50dcee83c203ba4140a9bc97dc21131b0246fcf12a440976c832219a94daabc07082208e9db3d904721490177aa63 59d307f542c8b2bdabe59d1ec1c4ed59bd1801664868f2c99c03a9c748e50a890c2256c215b22e27e2ca9130053e3072c3d124213df659dad4baf928dd58759f",
            ),
            "no number"
        );
        assert!(rt;
            !is_read(
                b"aes brw cba1fadbded5249d9db5b4ac99d30ba7 00 cc689a280a354fe01cf11aed00c81dbab5c50dcee83c203ba4140a9bc97dc21131b0246fcf12a440976c832219a94daabc07082208e9db3d904721490177aa63 59d307f542c8b2bdabe59d1ec1c4ed59bd1801664868f2c99c03a9c748e50a890c2256c215b22e27e2ca9130053e3072c3d124213df659dad4baf928dd58759f",
            ),
            "a 0 before others"
        );
        assert!(rt;
            !is_read(
                b"aes brw cba1fadbded5249d9db5b4ac99d30ba7 +0 cc689a280a354fe01cf11aed00c81dbab5c50dcee83c203ba4140a9bc97dc21131b0246fcf12a440976c832219a94daabc07082208e9db3d904721490177aa63 59d307f542c8b2bdabe59d1ec1c4ed59bd1801664868f2c99c03a9c748e50a890c2256c215b22e27e2ca9130053e3072c3d124213df659dad4baf928dd58759f",
            ),
            "a sign"
        );
        assert!(rt;
            !is_read(
                b"aes brw cba1fadbded5249d9db5b4ac99d30ba7 0a cc689a280a354fe01cf11aed00c81dbab5c50dcee83c203ba4140a9bc97dc21131b0246fcf12a440976c832219a94daabc07082208e9db3d904721490177aa63 59d307f542c8b2bdabe59d1ec1c4ed59bd1801664868f2c99c03a9c748e50a890c2256c215b22e27e2ca9130053e3072c3d124213df659dad4baf928dd58759f",
            ),
            "no decimal digit"
        );
        assert!(rt;
            !is_read(
                b"aes brw cba1fadbded5249d9db5b4ac99d30ba7 100000000000000000000 cc689a280a354fe01cf11aed00c81dbab5c50dcee83c203ba4140a9bc97dc21131b0246fcf12a440976c832219a94daabc07082208e9db3d904721490177aa63 59d307f542c8b2bdabe59d1ec1c4ed59bd1801664868f2c99c03a9c748e50a890c2256c215b22e27e2ca9130053e3072c3d124213df659dad4baf928dd58759f",
            ),
            "21 digits"
        );
    }

    #[test]
    fn texts_not_understood(rt: HostRuntime) {
        assert!(rt;
            !is_read(
                b"aes brw cba1fadbded5249d9db5b4ac99d30ba7 0 cc689a280a354fe01cf11aed00c81dbab5c50dcee83c203ba4140a9bc97dc21131b0246fcf12a440976c832219a94daa 59d307f542c8b2bdabe59d1ec1c4ed59bd1801664868f2c99c03a9c748e50a890c2256c215b22e27e2ca9130053e3072",
            ),
            "48 bytes"
        );
        assert!(rt;
            !is_read(
                b"aes brw cba1fadbded5249d9db5b4ac99d30ba7 0 cc689a280a354fe01cf11aed00c81dbab5c50dcee83c203ba4140a9bc97dc21131b0246fcf12a440976c832219a94daabc07082208e9db3d904721490177aa63 59d307f542c8b2bdabe59d1ec1c4ed59bd1801664868f2c99c03a9c748e50a890c2256c215b22e27e2ca9130053e3072c3d124213df659dad4baf928dd58759f59d307f542c8b2bdabe59d1ec1c4ed59",
            ),
            "unequal lengths"
        );
        assert!(rt;
            !is_read(
                b"aes brw cba1fadbded5249d9db5b4ac99d30ba7 0 cc689a280a354fe01cf11aed00c81dbab5c50dcee83c203ba4140a9bc97dc21131b0246fcf12a440976c832219a94daabc07082208e9db3d904721490177aa 59d307f542c8b2bdabe59d1ec1c4ed59bd1801664868f2c99c03a9c748e50a890c2256c215b22e27e2ca9130053e3072c3d124213df659dad4baf928dd5875",
            ),
            "63 bytes"
        );
        assert!(rt;
            !is_read(b"aes brw cba1fadbded5249d9db5b4ac99d30ba7 0 - -"),
            "no texts"
        );
    }

    #[test]
    fn words_not_understood(rt: HostRuntime) {
        assert!(rt;
            !is_read(
                b"horner brw cba1fadbded5249d9db5b4ac99d30ba7 0 cc689a280a354fe01cf11aed00c81dbab5c50dcee83c203ba4140a9bc97dc21131b0246fcf12a440976c832219a94daabc07082208e9db3d904721490177aa63 59d307f542c8b2bdabe59d1ec1c4ed59bd1801664868f2c99c03a9c748e50a890c2256c215b22e27e2ca9130053e3072c3d124213df659dad4baf928dd58759f",
            ),
            "a hash for the cipher"
        );
        assert!(rt;
            !is_read(
                b"aes speck cba1fadbded5249d9db5b4ac99d30ba7 0 cc689a280a354fe01cf11aed00c81dbab5c50dcee83c203ba4140a9bc97dc21131b0246fcf12a440976c832219a94daabc07082208e9db3d904721490177aa63 59d307f542c8b2bdabe59d1ec1c4ed59bd1801664868f2c99c03a9c748e50a890c2256c215b22e27e2ca9130053e3072c3d124213df659dad4baf928dd58759f",
            ),
            "a cipher for the hash"
        );
        assert!(rt;
            !is_read(
                b"aes Brw cba1fadbded5249d9db5b4ac99d30ba7 0 cc689a280a354fe01cf11aed00c81dbab5c50dcee83c203ba4140a9bc97dc21131b0246fcf12a440976c832219a94daabc07082208e9db3d904721490177aa63 59d307f542c8b2bdabe59d1ec1c4ed59bd1801664868f2c99c03a9c748e50a890c2256c215b22e27e2ca9130053e3072c3d124213df659dad4baf928dd58759f",
            ),
            "a capital in the hash"
        );
        assert!(rt;
            !is_read(
                b"aes brw cba1fadbded5249d9db5b4ac99d30ba7 0 cc689a280a354fe01cf11aed00c81dbab5c50dcee83c203ba4140a9bc97dc21131b0246fcf12a440976c832219a94daabc07082208e9db3d904721490177aa63 59d307f542c8b2bdabe59d1ec1c4ed59bd1801664868f2c99c03a9c748e50a890c2256c215b22e27e2ca9130053e3072c3d124213df659dad4baf928dd58759f 00",
            ),
            "a word too many"
        );
        assert!(rt;
            !is_read(
                b"aes brw cba1fadbded5249d9db5b4ac99d30ba7 0 cc689a280a354fe01cf11aed00c81dbab5c50dcee83c203ba4140a9bc97dc21131b0246fcf12a440976c832219a94daabc07082208e9db3d904721490177aa63",
            ),
            "a word missing"
        );
        assert!(rt;
            !is_read(
                b"sector cba1fadbded5249d9db5b4ac99d30ba7 cc689a280a354fe01cf11aed00c81dba 59d307f542c8b2bdabe59d1ec1c4ed59",
            ),
            "the word for sectors begins no line"
        );
    }
}
