ghost use Rattle.std.specs.Prelude.{◌≡◌, ◌-◌, ◌^◌, ◌<◌, ◌≤◌, ◌∷◌, length, take, drop, if◌then◌else◌, Some, None};
ghost use Rattle.polynomials.specs.Sums.{dot, power, horner as horner_of, squared, Squares, levels as levels_of, room, filled, brw as brw_of, squared_brw};

use crate::lists::{Elements, element};
use elements::element::{Arithmetic, Element};

// The sum of the products of two lists, pair by pair, as far as the shorter goes. By index: of pairs taken from a chain, an
// edit that drops the last cannot be told from one that drops none.
pub fn sum_of_products<E: Element>(a: &[E], b: &[E]) -> E
    ensures { result ≡ dot E.Arithmetic.operations a.now b.now }
{
    let mut total = E::zero();
    for i in 0..a.len().min(b.len()) {
        total = total.add(a[i].mul(b[i]));
    }
    total
}

// One step of Horner: the next coefficient.
fn horner_step<E: Arithmetic>(key: E, value: E, x: E) -> E
    ensures { result ≡ E.Arithmetic.operations.sum (E.Arithmetic.operations.product value key) x }
{
    value.mul(key).add(x)
}

// Horner of `first` and then the elements of `xs` from index `from` on.
// It counts the index, as a list is read by `get` alone: an iterator would too, and hold a PhantomData for E besides.
fn horner_part<E: Element, L: Elements<E>>(key: E, first: E, xs: &L, from: usize) -> E
    requires { from ≤ length (L.items xs.now) }
    ensures { result ≡ horner_of E.Arithmetic.operations key (first ∷ drop from (L.items xs.now)) }
{
    let mut value = first;
    for i in from..xs.len() {
        value = horner_step(key, value, element(xs, i));
    }
    value
}

// Horner at `key` of the list that `first` begins and `rest` goes on. It makes as many products as `rest` is long.
pub fn horner_from<E: Element, L: Elements<E>>(key: E, first: E, rest: &L) -> E
    ensures { result ≡ horner_of E.Arithmetic.operations key (first ∷ L.items rest.now) }
{
    horner_part(key, first, rest, 0)
}

// Horner at `key`: the polynomial with the coefficients `xs`, the highest first. It makes one product less than
// `xs` is long.
pub fn horner<E: Element, L: Elements<E>>(key: E, xs: &L) -> E
    ensures { result ≡ horner_of E.Arithmetic.operations key (L.items xs.now) }
{
    match xs.get(0) {
        None => E::zero(),
        Some(first) => horner_part(key, first, xs, 1),
    }
}

// Fills the table with the key to the powers 1, 2, 4, .., each the square of the one before.
fn fill_squares<E: Arithmetic>(key: E, table: &mut [E])
    ensures { Squares E.Arithmetic.operations key table.new }
{
    let Some((first, rest)) = table.split_first_mut() else {
        return;
    };
    *first = key;
    let mut power = key;
    for place in rest {
        power = power.mul(power);
        *place = power;
    }
}

// How many powers BRW of m elements uses, the key itself among them.
fn levels(m: usize) -> usize
    ensures { result ≡ levels_of m }
{
    if m < 3 { 1 } else { m.ilog2() as usize + 1 }
}

// The key, and the table of its powers 1, 2, 4, ..
#[derive(Drop)]
struct Powers<'a, E: Arithmetic> {
    key: E,
    table: &'a [E],
    ghost squares: { ∥ Squares E.Arithmetic.operations key table.now ∥₁ },
}

impl<'a, E: Arithmetic> Powers<'a, E> {
    // The key to the power 2^k.
    fn at(&self, k: usize) -> E
        requires { k < length self.now.table.now }
        ensures { result ≡ squared E.Arithmetic.operations self.now.key k }
    {
        self.table[k]
    }
}

// BRW of the elements from index `from` on and before `to`.
// A type for a part of a list would hold the same three values, and a PhantomData for E besides.
fn brw_part<E: Arithmetic, L: Elements<E>>(powers: &Powers<E>, xs: &L, from: usize, to: usize) -> E
    requires enough { 3 ≤ to - from → to - from < 2 ^ length powers.now.table.now }
    requires forward { from ≤ to }
    requires within { to ≤ length (L.items xs.now) }
    ensures { result ≡ squared_brw E.Arithmetic.operations powers.now.key (take (to - from) (drop from (L.items xs.now))) }
{
    let key = powers.key;
    let m = to - from;
    match m {
        0 => E::zero(),
        1 => element(xs, from),
        2 => element(xs, from).mul(key).add(element(xs, from + 1)),
        3 => {
            let low = element(xs, from).add(key);
            let middle = element(xs, from + 1).add(powers.at(1));
            low.mul(middle).add(element(xs, from + 2))
        }
        _ => {
            let k = m.ilog2();
            let p = 1usize << k;
            let low = brw_part(powers, xs, from, from + p - 1);
            let middle = element(xs, from + p - 1).add(powers.at(k as usize));
            let high = brw_part(powers, xs, from + p, to);
            low.mul(middle).add(high)
        }
    }
}

// BRW with the powers of the key by repeated squaring. It asks for no law, so that a type that counts can be put in.
pub fn brw_by_squares<E: Arithmetic, L: Elements<E>>(key: E, powers: &mut [E], xs: &L) -> Option<E>
    ensures value { result ≡ (if room (length powers.old) (length (L.items xs.now)) then Some (squared_brw E.Arithmetic.operations key (L.items xs.now)) else None) }
    ensures enough { 64 ≤ length powers.old → result ≡ Some (squared_brw E.Arithmetic.operations key (L.items xs.now)) }
    ensures powers { powers.new ≡ (if room (length powers.old) (length (L.items xs.now)) then filled (squared E.Arithmetic.operations key) (levels_of (length (L.items xs.now))) powers.old else powers.old) }
{
    let m = xs.len();
    let n = levels(m);
    if n > powers.len() {
        return None;
    }
    fill_squares(key, &mut powers[..n]);
    let powers = Powers {
        key,
        table: &powers[..n],
    };
    Some(brw_part(&powers, xs, 0, m))
}

// BRW at `key`. `powers` is room for the key's powers, log2 m + 1 of them from m = 3 elements on and one before;
// 64 places are enough for every list, and with too few places there is no answer. It makes m / 2 products and,
// from m = 3 on, log2 m squarings (both rounded down).
pub fn brw<E: Element, L: Elements<E>>(key: E, powers: &mut [E], xs: &L) -> Option<E>
    ensures value { result ≡ (if room (length powers.old) (length (L.items xs.now)) then Some (brw_of E.Arithmetic.operations key (L.items xs.now)) else None) }
    ensures enough { 64 ≤ length powers.old → result ≡ Some (brw_of E.Arithmetic.operations key (L.items xs.now)) }
    ensures powers { powers.new ≡ (if room (length powers.old) (length (L.items xs.now)) then filled (λ k. power E.Arithmetic.operations key (2 ^ k)) (levels_of (length (L.items xs.now))) powers.old else powers.old) }
{
    brw_by_squares(key, powers, xs)
}
