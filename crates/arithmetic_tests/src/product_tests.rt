// Products against tables made by other methods.
use elements::element::Arithmetic;
use elements::values::{Block, Byte};

// Written by tools/products.py: term by term, and then a long division.
const PRODUCTS: [(u128, u128, u128); 24] = [
    (
        0x00000000000000000000000000000000,
        0xffffffffffffffffffffffffffffffff,
        0x00000000000000000000000000000000,
    ),
    (
        0x00000000000000000000000000000001,
        0xffffffffffffffffffffffffffffffff,
        0xffffffffffffffffffffffffffffffff,
    ),
    (
        0xffffffffffffffffffffffffffffffff,
        0x00000000000000000000000000000001,
        0xffffffffffffffffffffffffffffffff,
    ),
    (
        0x00000000000000000000000000000002,
        0x80000000000000000000000000000000,
        0x00000000000000000000000000000087,
    ),
    (
        0x80000000000000000000000000000000,
        0x00000000000000000000000000000002,
        0x00000000000000000000000000000087,
    ),
    (
        0x80000000000000000000000000000000,
        0x80000000000000000000000000000000,
        0xc0000000000000000000000000001067,
    ),
    (
        0x00000000000000000000000000000003,
        0x00000000000000000000000000000003,
        0x00000000000000000000000000000005,
    ),
    (
        0xffffffffffffffffffffffffffffffff,
        0xffffffffffffffffffffffffffffffff,
        0x5555555555555555555555555555402f,
    ),
    (
        0x00000000000000000000000000000087,
        0x80000000000000000000000000000000,
        0x80000000000000000000000000002049,
    ),
    (
        0x00000000000000010000000000000000,
        0x00000000000000010000000000000000,
        0x00000000000000000000000000000087,
    ),
    (
        0x00000000000000008000000000000000,
        0x00000000000000020000000000000000,
        0x00000000000000000000000000000087,
    ),
    (
        0x67d9849f3c94f8e0d974b822f0a612e1,
        0x7bb2dae32250963d5d2d816782f2681e,
        0x1e89759ca1c3de2243655c0915749388,
    ),
    (
        0x5190feda277a4c28fc377c61075dce9e,
        0xa10d04b240699a838a1d921ca352a3c3,
        0x67dcb7c440fd7293b046a2a69c115688,
    ),
    (
        0xe46ab5adb68f9c7d936d4747ab0e6d1c,
        0xc694494e110443704ced30628e0cd071,
        0x9befcdb3c2fe3fea969b1247f9aa4ab2,
    ),
    (
        0xc2b90e2d4a7acb31079184601cbc456d,
        0xd584a285e92195e81f7678795f345ff4,
        0x7459a30ae529f6d327cc5a4a7d8962c5,
    ),
    (
        0xe8c4546870efc3e0a4fab233b7895f8e,
        0x852495966643d5c8f8a7e4e12a61d563,
        0x0f943186bb0eaa86c759fd4a795636cc,
    ),
    (
        0x786d6f68d7273a2f5b2495d1eb090346,
        0x86e4c375520f6f477e52292d5312eeb9,
        0xd6763f73c3cd1c3ab1a2f364119bc2c0,
    ),
    (
        0x4ed31d1aadac784269d0dfa3591bebee,
        0xe996ab0432863bc7411720d0d7bbc777,
        0x4f202656625d03dddafa3d13a0b23179,
    ),
    (
        0x242c610b00a83455d69befbd90e13c6e,
        0x1355e4e910f62c7a263ade4f90136cc3,
        0xdcf98afd3367c3c7047d16b0da837033,
    ),
    (
        0x72059a23441f7b7775b0cc5693364c15,
        0x51d87b3e60af7e14804f0c92c3882df5,
        0xa13b13817f5318145450fe55185d8953,
    ),
    (
        0x6c5ddceb914fe099cdc10bffbcafb09a,
        0xd5e9098ecd1868510a18d7bf574fc6d0,
        0x275c10a0d0089d345dc73ea94ebebf99,
    ),
    (
        0x73f78b92241dcce7bcf5de8d6717b399,
        0x87d6f72272c76d576ed5ad1301e78715,
        0xaafd2085b0912cef62ff569a256d3ac0,
    ),
    (
        0x7c475f39511e86f4f8cba2d2461dd69c,
        0xc8b63db9c4506aeb6540e9c8cea787f9,
        0x8fa2102a0c930e7b63c6fc0352cc28b6,
    ),
    (
        0x3944255d6999c7028d908b64ef9ea35b,
        0x2a808e756c2c600939bc4628d2296d0b,
        0x2e41a23149d360ec6e4c9d8429c649f2,
    ),
];

#[test]
fn block_products(rt: HostRuntime) {
    for (a, b, product) in PRODUCTS {
        let (a, b) = (Block::new(a), Block::new(b));
        assert_eq!(rt; a.mul(b), Block::new(product));
        assert_eq!(rt; b.mul(a), Block::new(product));
    }
}

// The powers of 03, which runs through every byte but 00: 03 to the power i at place i.
fn powers_of_three() -> [u8; 255] {
    let mut table = [1u8; 255];
    let mut x = 1u8;
    for place in &mut table {
        *place = x;
        let twice = (x << 1) ^ (if x >= 0x80 { 0x1b } else { 0 });
        x ^= twice;
    }
    table
}

// By logarithms: a product of powers of 03 is the power of the sum of their exponents.
#[test]
fn byte_products(rt: HostRuntime) {
    let table = powers_of_three();
    let zero = Byte::new(0);
    assert_eq!(rt; zero.mul(zero), zero);
    for (i, x) in table.iter().enumerate() {
        let x = Byte::new(*x);
        assert_eq!(rt; x.mul(zero), zero);
        for (j, y) in table.iter().enumerate() {
            assert_eq!(rt; x.mul(Byte::new(*y)).value, table[(i + j) % 255]);
        }
    }
}
