// The marked cases on the code: `sector` proves the same of the definitions.
use elements::element::Arithmetic;
use elements::values::{Block, Byte, Degree};
use polynomials::sums::{brw, horner};
use polynomials::views::{Blocks, Repeated};

#[test]
fn products_and_sums(rt: HostRuntime) {
    assert_eq!(rt; Block::new(0x80 << 120).double(), Block::new(0x87));
    assert_eq!(rt; Block::new(0x03).mul(Block::new(0x03)), Block::new(0x05));
    assert_eq!(rt; Byte::new(0x57).mul(Byte::new(0x83)), Byte::new(0xc1));
    let five = Degree::new(Some(5));
    let none = Degree::new(None);
    let largest = Degree::new(Some(4294967295));
    assert_eq!(rt; none.add(five), five);
    assert_eq!(rt; none.mul(five), none);
    assert_eq!(rt; Degree::new(Some(3)).mul(five), Degree::new(Some(8)));
    assert_eq!(rt; largest.mul(five), largest);
}

#[test]
fn horner_of_three(rt: HostRuntime) {
    let list = [Block::new(0x01), Block::new(0x00), Block::new(0x05)];
    let xs = &list[..];
    assert_eq!(rt; horner(Block::new(2), &xs), Block::new(0x01));
}

fn brw_at_two(xs: &[Block]) -> Option<Block> {
    let mut powers = [Block::zero(); 64];
    brw(Block::new(2), &mut powers, &xs)
}

#[test]
fn brw_of_two_and_three(rt: HostRuntime) {
    assert_eq!(rt;
        brw_at_two(&[Block::new(0x03), Block::new(0x01)]),
        Some(Block::new(0x07))
    );
    assert_eq!(rt;
        brw_at_two(&[Block::new(0x01), Block::new(0x02), Block::new(0x03)]),
        Some(Block::new(0x09))
    );
}

#[test]
fn brw_of_zeros(rt: HostRuntime) {
    assert_eq!(rt; brw_at_two(&[Block::zero(); 4]), Some(Block::new(0x80)));
    assert_eq!(rt; brw_at_two(&[Block::zero(); 7]), Some(Block::new(0x88)));
}

// The same list as elements and as the bytes it lies as gives the same value, and a table that is too short none.
#[test]
fn brw_of_bytes(rt: HostRuntime) {
    let mut powers = [Block::zero(); 2];
    let bytes = [0u8; 112];
    assert_eq!(rt;
        brw(Block::new(2), &mut powers, &Blocks { bytes: &bytes }),
        None
    );
    assert_eq!(rt; powers[1], Block::zero());
    let mut enough = [Block::zero(); 3];
    assert_eq!(rt;
        brw(Block::new(2), &mut enough, &Blocks { bytes: &bytes }),
        Some(Block::new(0x88))
    );
    assert_eq!(rt; enough[2], Block::new(0x10));
    let zeros = Repeated {
        element: Block::zero(),
        count: 7,
    };
    assert_eq!(rt;
        brw(Block::new(2), &mut enough, &zeros),
        Some(Block::new(0x88))
    );
}
